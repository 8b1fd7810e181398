//! The histories that threads write, and what stands in them.
ghost use Rattle.std.specs.Prelude.{◌≡◌, ◌<◌, length};
ghost use Rattle.journal_core.specs.Journals.{new_author, new_pass};
ghost use Rattle.pager_model.specs.Settings.{mark_of};
ghost use Rattle.text_tests.specs.Samples.{unmapped, sample, Filled};

use super::NO_MEMORY;
use journal_core::{Author, Journal, Opened, Pass, close, commit, create};
use pager_model::{Answered, Call, Entry, Numbered, Reply, Setting, What};
use std::alloc::Global;
use std::process::Abort;
use std::thread::{Threads, join};

/// The answer to a load of a processor's space, in which no region has the page.
fn answer(processor: u32, number: u32) -> Entry
    ensures { result ≡ unmapped processor number }
{
    let call = Call::Load {
        space: processor,
        address: 0,
    };
    let answered = Answered {
        reply: Reply::Unmapped,
        hit: false,
        size: None,
    };
    Entry {
        processor,
        space: Some(processor),
        frames: false,
        what: What::Answer {
            number,
            call,
            answered,
        },
    }
}

fn commit_all(journal: &Journal, author: Author, pass: Pass, processor: u32) -> (Author, Pass)
    requires author { author ≡ new_author journal.now.name processor }
    requires pass { pass ≡ new_pass journal.now.name processor 100 }
    requires space { processor < length journal.now.name.setting.told }
    requires caller { mark_of journal.now.name.setting processor ≡ 0 }
    ensures { Filled journal.now.name processor 100 result.0 result.1 }
{
    let mut author = author;
    let mut pass = pass;
    for number in 0..100 {
        let (_, next_author, next_pass) = commit(journal, author, pass, answer(processor, number));
        author = next_author;
        pass = next_pass;
    }
    (author, pass)
}

/// Two processors, two spaces whose stores aren't told, and 512 frames.
fn sample_setting(rt: &impl Abort, alloc: Global) -> Setting
    ensures { result ≡ sample }
{
    let marks = vec![in alloc; 0; 2].expect(rt, NO_MEMORY);
    let told = vec![in alloc; false; 2].expect(rt, NO_MEMORY);
    let faults = vec![in alloc; 0; 2].expect(rt, NO_MEMORY);
    Setting::of(512, marks, told, faults)
}

/// Each of two threads commits all answers of one processor.
fn both<R: Threads + Sync>(
    rt: &R,
    journal: &Journal,
    first: (Author, Pass),
    second: (Author, Pass),
) -> ((Author, Pass), (Author, Pass))
    requires setting { journal.now.name.setting ≡ sample }
    requires first { (first.0 ≡ new_author journal.now.name 0) × (first.1 ≡ new_pass journal.now.name 0 100) }
    requires second { (second.0 ≡ new_author journal.now.name 1) × (second.1 ≡ new_pass journal.now.name 1 100) }
    ensures first { Filled journal.now.name 0 100 result.0.0 result.0.1 }
    ensures second { Filled journal.now.name 1 100 result.1.0 result.1.1 }
{
    let (author, pass) = first;
    let (other_author, other_pass) = second;
    join(
        rt,
        move || -> (Author, Pass)
            requires { (author ≡ new_author journal.now.name 0) × (pass ≡ new_pass journal.now.name 0 100) × (journal.now.name.setting ≡ sample) }
            ensures { Filled journal.entry.now.name 0 100 result.0 result.1 }
        { commit_all(journal, author, pass, 0) },
        move || -> (Author, Pass)
            requires { (other_author ≡ new_author journal.now.name 1) × (other_pass ≡ new_pass journal.now.name 1 100) × (journal.now.name.setting ≡ sample) }
            ensures { Filled journal.entry.now.name 1 100 result.0 result.1 }
        { commit_all(journal, other_author, other_pass, 1) },
    )
}

/// The history of two threads.
fn by_two<R: Threads + Sync + Abort>(rt: &R, alloc: Global) -> Vec<Numbered> {
    let setting = sample_setting(rt, alloc);
    let opened = create(alloc, setting, &[100, 100]).expect(rt, NO_MEMORY);
    let Opened {
        journal,
        mut authors,
        mut passes,
    } = opened;
    let first = (authors.remove(0), passes.remove(0));
    let second = (authors.remove(0), passes.remove(0));
    let (first, second) = both(rt, &journal, first, second);
    passes.push(first.1).expect(rt, NO_MEMORY);
    passes.push(second.1).expect(rt, NO_MEMORY);
    close(journal, authors, passes)
}

/// How many answers a processor has in a history, where they are in order.
fn answers_by(history: &[Numbered], processor: u32) -> u32 {
    let mut count = 0u32;
    for numbered in history {
        if numbered.entry == answer(processor, count) {
            count = count.wrapping_add(1);
        }
    }
    count
}

#[test]
fn the_entries_of_two_threads_make_one_history(rt: HostRuntime) {
    let history = by_two(&rt, rt.alloc());
    assert!(rt;
        history.len() == 200 && answers_by(&history, 0) == 100 && answers_by(&history, 1) == 100
    );
}
