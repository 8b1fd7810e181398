//! A space over stores in memory that fail, in worked rows.
ghost use Rattle.std.specs.Prelude.{◌≡◌, ◌+◌, ◌<◌, ◌≤◌, None, IfOk};
ghost use Rattle.pager_model.specs.Bounds.{space_pages};
ghost use Rattle.pager_model.specs.Flat.{space_of_call};
ghost use Rattle.pager_model.specs.TraceText.{IsCall};
ghost use Rattle.space_tests.specs.Spares.{HasSpare, IsEmptied};
ghost use Rattle.space_core.specs.Standing.{CanBegin};

use super::{NO_MEMORY, count, number, words};
use pager_model::{Call, Frame, Kind, NoMemory, PageRange, Reply, Rights, Sizes, frames_of};
use space_core::{Begun, Space, SpaceRoom};
use std::alloc::Global;
use std::process::Abort;
use store_core::MemoryStore;

const SPACE: u32 = 3;

/// The pages that rows name.
const PAGES: u32 = 1024;

/// How many frames are spare at first. The last one is taken first.
const SPARE: u32 = 64;

// The rows of a table are calls of one processor in turn:
//
//     CALL PAGE WORD REPLY NUMBER GAVE FRAME
//
// WORD is what a store stores, and how many pages from the page on a map or a discard is of. Behind the reply stands its number, if it has one, and
// then the frame that the page gives up, or the last of a range's pages that has one, and the one that the page has after the call.

/// The first two writes fail: the page stays resident and dirty.
const FAILED_WRITES: &str = "\
map 16 8 done - - -
store 17 5 done - - 63
sync 17 - fault 1 - 63
evict 17 - fault 2 - 63
load 17 - value 5 - 63
sync 17 - written - - 63
sync 17 - clean - - 63
evict 17 - clean - 63 -
load 17 - value 5 - 62
";

/// The first two reads fail: the page gives its frame back.
const FAILED_READS: &str = "\
map 16 8 done - - -
load 17 - fault 1 63 -
store 17 5 fault 2 62 -
sync 17 - clean - - -
load 17 - value 0 - 61
";

/// Pages that are discarded are zero, and so are their copies: neither the written word comes back nor one that wasn't written yet.
const DISCARDED: &str = "\
map 0 8 done - - -
store 0 5 done - - 63
sync 0 - written - - 63
discard 0 8 done - 63 -
load 0 - value 0 - 62
store 0 6 done - - 62
discard 0 8 done - 62 -
sync 0 - clean - - -
load 0 - value 0 - 61
discard 1 8 unmapped - - -
load 0 - value 0 - 61
";

/// A region that is pinned is wired until it is pinned no longer.
const PINNED: &str = "\
map 0 8 done - - -
store 0 5 done - - 63
wire 1 - done - - -
evict 0 - denied - - 63
discard 0 8 denied - - 63
load 1 - value 0 - 62
unwire 1 - done - - 62
evict 0 - written - 63 -
discard 0 8 done - 62 -
load 0 - value 0 - 61
wire 8 - unmapped - - -
unwire 8 - unmapped - - -
";

/// The reply where the store failed.
fn fault(count: u64) -> Reply {
    Reply::StoreFault {
        space: SPACE,
        count,
    }
}

/// The reply that a row names.
fn reply_of(word: &str, number: u32) -> Reply {
    match word {
        "done" => Reply::Done,
        "clean" => Reply::Clean,
        "written" => Reply::Written,
        "unmapped" => Reply::Unmapped,
        "denied" => Reply::Denied,
        "value" => Reply::Value(u64::from(number)),
        _ => fault(u64::from(number)),
    }
}

/// The call that a row names.
fn call_of(word: &str, page: u32, number: u32) -> Call
    requires { page < PAGES }
    ensures space { space_of_call result ≡ SPACE }
    ensures can { IsCall 4 result }
{
    let address = u64::from(page) * 8192;
    match word {
        "map" => Call::Map {
            space: SPACE,
            page,
            length: number.clamp(1, PAGES),
            kind: Kind::Fixed,
            rights: Rights::Write,
        },
        "load" => Call::Load {
            space: SPACE,
            address,
        },
        "store" => Call::Store {
            space: SPACE,
            address,
            word: u64::from(number),
        },
        "sync" => Call::Sync { space: SPACE, page },
        "discard" => Call::Discard {
            space: SPACE,
            page,
            length: number.clamp(1, PAGES),
        },
        "wire" => Call::Wire { space: SPACE, page },
        "unwire" => Call::Unwire { space: SPACE, page },
        _ => Call::Evict { space: SPACE, page },
    }
}

/// A space with images for two processors and spare frames for it, over a store.
fn begun(alloc: Global, store: MemoryStore) -> Result<(Space<MemoryStore>, Vec<Frame>), NoMemory>
    ensures number { IfOk result (λ made. made.0.number ≡ SPACE) }
    ensures spare { IfOk result (λ made. HasSpare made.0 made.1.items) }
{
    let spare = frames_of(alloc, SPARE)?;
    let room = SpaceRoom::create(alloc, SPARE, 2, Sizes::all())?;
    Ok((Space::over(SPACE, room, store), spare))
}

/// A store in memory that fails at these reads and writes.
fn failing(rt: &impl Abort, alloc: Global, reads: &[u64], writes: &[u64]) -> MemoryStore {
    let reads = reads.to_vec(alloc).expect(rt, NO_MEMORY);
    let writes = writes.to_vec(alloc).expect(rt, NO_MEMORY);
    MemoryStore::of(alloc, reads, writes)
}

/// Clears a range. The frame of the last of its resident pages.
fn clear(space: &mut Space<MemoryStore>, range: PageRange) -> Option<u32>
    requires in_space { range.first + range.length ≤ space_pages }
    requires none_pending { space.old.pending ≡ None }
    ensures { IsEmptied space.old space.new range.first range.length }
{
    let mut gave = None;
    while let Some((_, frame)) = space.clear_next(range) {
        gave = Some(frame.number());
    }
    gave
}

/// The answer to a processor's call, where a page that needs a frame gets the last of the spare ones, with the frame that its page gave up, if
/// the call evicts it or its copy can't be read, and that of the last resident page of a range, if it discards one.
fn serve(
    rt: &impl Abort,
    space: &mut Space<MemoryStore>,
    spare: &mut Vec<Frame>,
    call: &Call,
) -> (Reply, Option<u32>)
    requires space { space_of_call call.now ≡ space.old.number }
    requires can { CanBegin call.now }
    requires spare { HasSpare space.old spare.old.items }
    ensures number { space.new.number ≡ space.old.number }
    ensures spare { HasSpare space.new spare.new.items }
{
    match space.begin(0, call) {
        Begun::Answered(answered) => (answered.reply, None),
        Begun::NeedsFrame { page, .. } => {
            let Some(frame) = spare.pop() else {
                panic!(rt; "no frame is left");
            };
            space.map_page(page, frame);
            match space.read_in(page) {
                Ok(found) => (space.finish(0, call, found).reply, None),
                Err(count) => (fault(count), Some(space.remove(page).number())),
            }
        }
        Begun::NeedsClear { first, length } => {
            let Call::Discard { .. } = call else {
                panic!(rt; "no row unmaps");
            };
            let gave = clear(space, PageRange { first, length });
            (space.discard(first, length).reply, gave)
        }
        Begun::NeedsPin { first, wired, .. } => (space.pin(first, wired).reply, None),
        Begun::NeedsEvict { page } => {
            let (frame, answered) = space.evict(page);
            (answered.reply, Some(frame.number()))
        }
        Begun::Failed { count, .. } => (fault(count), None),
    }
}

/// Makes the call of a row. Whether it goes as the row says.
fn goes(rt: &impl Abort, space: &mut Space<MemoryStore>, spare: &mut Vec<Frame>, row: &str) -> bool
    requires space { space.old.number ≡ SPACE }
    requires spare { HasSpare space.old spare.old.items }
    ensures number { space.new.number ≡ SPACE }
    ensures spare { HasSpare space.new spare.new.items }
{
    let [word, page, stored, reply, told, gave, frame, _] = words(row);
    let page = count(page);
    if page >= PAGES {
        return false;
    }
    let call = call_of(word, page, count(stored));
    let (answer, given) = serve(rt, space, spare, &call);
    answer == reply_of(reply, count(told))
        && given == number(gave)
        && space.resident(page) == number(frame)
}

/// Asserts that the rows of a table go as they say, one after another.
fn go_through(rt: &impl Abort, space: &mut Space<MemoryStore>, spare: &mut Vec<Frame>, table: &str)
    requires space { space.old.number ≡ SPACE }
    requires spare { HasSpare space.old spare.old.items }
    ensures number { space.new.number ≡ SPACE }
    ensures spare { HasSpare space.new spare.new.items }
{
    for row in table.lines() {
        assert!(rt; goes(rt, space, spare, row), "{row}");
    }
}

/// Asserts that they do over a store that fails at these reads and writes.
fn go_all(rt: &impl Abort, alloc: Global, reads: &[u64], writes: &[u64], table: &str) {
    let store = failing(rt, alloc, reads, writes);
    let (mut space, mut spare) = begun(alloc, store).expect(rt, NO_MEMORY);
    go_through(rt, &mut space, &mut spare, table);
}

/// Asserts that each of the first 64 pages is loaded, the last one first: each page gets the frame of its own number.
fn load_all(rt: &impl Abort, space: &mut Space<MemoryStore>, spare: &mut Vec<Frame>)
    requires space { space.old.number ≡ SPACE }
    requires spare { HasSpare space.old spare.old.items }
    ensures number { space.new.number ≡ SPACE }
    ensures spare { HasSpare space.new spare.new.items }
{
    for loaded in 1..=SPARE {
        let load = call_of("load", SPARE - loaded, 0);
        let (reply, _) = serve(rt, space, spare, &load);
        assert!(rt; reply == Reply::Value(0));
    }
}

#[test]
fn a_store_that_fails_leaves_the_page_as_it_was(rt: HostRuntime) {
    go_all(&rt, rt.alloc(), &[], &[1, 2], FAILED_WRITES);
    go_all(&rt, rt.alloc(), &[1, 2], &[], FAILED_READS);
}

#[test]
fn a_discard_makes_pages_new_and_a_pinned_region_is_wired(rt: HostRuntime) {
    go_all(&rt, rt.alloc(), &[], &[], DISCARDED);
    go_all(&rt, rt.alloc(), &[], &[], PINNED);
}

#[test]
fn a_discard_cuts_the_superpage_of_its_pages(rt: HostRuntime) {
    let store = failing(&rt, rt.alloc(), &[], &[]);
    let (mut space, mut spare) = begun(rt.alloc(), store).expect(&rt, NO_MEMORY);
    go_through(&rt, &mut space, &mut spare, "map 0 64 done - - -");
    load_all(&rt, &mut space, &mut spare);
    assert!(rt; space.tile_counts() == [0, 0, 1, 0]);
    go_through(&rt, &mut space, &mut spare, "discard 8 8 done - 15 -");
    assert!(rt; space.tile_counts() == [0, 7, 0, 0]);
    assert!(rt; space.moves().1 == 1);
}
