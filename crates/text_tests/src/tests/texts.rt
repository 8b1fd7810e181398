//! The report of a small history, and counts so far. Lines of other entries are printed by examples.

use super::NO_MEMORY;
use super::streams::{Slow, sink_of};
use pager_model::{Answered, Call, Entry, Reply, Size, Summary, Want, What};
use report_text::{Parts, SoFar, write_report, write_so_far};
use run_history::History;
use std::alloc::Global;
use std::process::Abort;

const LOAD: Call = Call::Load {
    space: 2,
    address: 4096,
};

const WANT: Want = Want {
    low: 6,
    high: 518,
    cap: 64,
    wired: true,
};

const SUMMARY: Summary = Summary {
    tiles: [1, 2, 3, 4],
    promotions: 5,
    demotions: 6,
    preemptions: 7,
    hits: 1,
    misses: 0,
    free: 504,
    reserved: 7,
    used: 1,
};

/// What the history comes to.
const TEXT: &[u8] =
    b"3 7 nomemory\n3 8 value 5 hit 3\n0 3 s2 answer 7 nomemory\n1 3 s2+f take 6 7 6 518 64 1\n2 3 s2 failed 6 read 1\n3 3 s2 answer 8 value 5 hit 3\ntiles 1 2 3 4\npromotions 5\ndemotions 6\npreemptions 7\nimages 1 0\nframes 504 7 1\nend\n";

/// An entry of processor 3 that names space 2, and the frames where it says so.
fn entry(frames: bool, what: What) -> Entry {
    Entry {
        processor: 3,
        space: Some(2),
        frames,
        what,
    }
}

/// The answer to a load.
fn answer(number: u32, reply: Reply, size: Option<Size>) -> Entry {
    let answered = Answered {
        reply,
        hit: true,
        size,
    };
    entry(
        false,
        What::Answer {
            number,
            call: LOAD,
            answered,
        },
    )
}

/// Two answers, of which a brief says the second, and what comes between them.
fn entries() -> [Entry; 4] {
    let take = What::Take {
        page: 6,
        frame: 7,
        want: WANT,
    };
    let failed = What::Failed {
        page: 6,
        writing: false,
        count: 1,
    };
    [
        answer(7, Reply::NoMemory, None),
        entry(true, take),
        entry(false, failed),
        answer(8, Reply::Value(5), Size::of(3)),
    ]
}

/// A history of these.
fn small_history(rt: &impl Abort, alloc: Global) -> History {
    let [first, second, third, last] = entries();
    let mut history = History::create(alloc, 4).expect(rt, NO_MEMORY);
    history.push(&first);
    history.push(&second);
    history.push(&third);
    history.push(&last);
    history
}

/// Writes the report, 16 bytes a write, of which one fails. Answers whether all was written, and how many bytes of the text are there,
/// where it begins with them.
fn write_failing(rt: &impl Abort, alloc: Global, failing: u64) -> (bool, Option<usize>) {
    let history = small_history(rt, alloc);
    let mut sink = Slow::of(sink_of(rt, alloc, 300, failing));
    let wrote = write_report(&mut sink, 4, &history, &SUMMARY, Parts::AnswersAndHistory).is_ok();
    let bytes = sink.bytes();
    (wrote, TEXT.starts_with(bytes).then_some(bytes.len()))
}

#[test]
fn each_write_that_fails_leaves_what_went_before(rt: HostRuntime) {
    let writes = TEXT.len().div_ceil(16);
    for gone in 0..=writes {
        let told = write_failing(&rt, rt.alloc(), gone as u64 + 1);
        let bytes = TEXT.len().min(gone.saturating_mul(16));
        assert!(rt; told == (gone == writes, Some(bytes)));
    }
}

/// Counts of which each is another one.
const SO_FAR: SoFar = SoFar {
    calls: 1000,
    summary: SUMMARY_SO_FAR,
    evictions: 8,
    unserved: 9,
};

const SUMMARY_SO_FAR: Summary = Summary {
    tiles: [11, 12, 13, 14],
    promotions: 5,
    demotions: 6,
    preemptions: 7,
    hits: 18_446_744_073_709_551_615,
    misses: 2,
    free: 504,
    reserved: 3,
    used: 4_294_967_295,
};

#[test]
fn counts_so_far_are_one_line(rt: HostRuntime) {
    let mut sink = sink_of(&rt, rt.alloc(), 300, 0);
    let wrote = write_so_far(&mut sink, &SO_FAR).is_ok();
    let text = b"after 1000 18446744073709551615 2 5 6 7 8 504 3 4294967295 9\n";
    assert!(rt; wrote && sink.bytes() == text.as_slice());
}
