//! Which frames pages get, which processor claims and holds them, and what becomes of reservations. Each call stands behind assertions
//! of what it requires.
use super::{NO_MEMORY, count, number, words};
use frame_pool::{Collected, Pool};
use pager_model::{Frame, PAGES, Sizes, Want};
use std::alloc::Global;
use std::process::Abort;

/// The frames of a pool, whether it has pages of the sizes 1, 2 and 3, and steps in it, whose forms are
///
/// - `take SPACE PAGE CAP FRAME` and `wire SPACE PAGE CAP FRAME`: a page of a region, which may be wired, takes this frame, or finds
///   none; a reservation for it has at most CAP pages. So many pages from it on take the frames from this one on where a number follows,
///   and at this distance where one more does;
/// - `give SPACE PAGE FRAME CLAIMER`: the page gives its frame up, which its claimer holds then. A number of pages may follow;
/// - `claim PROCESSOR SPACE PAGE FRAME`: it claims the frame of this page. `none PROCESSOR WIRED CLAIMED HELD`: it finds none;
/// - `unclaim PROCESSOR FRAME` and `drop PROCESSOR FRAME`;
/// - `use SPACE PAGE CAP FRAME PROCESSOR`: a page takes this frame where its processor has dropped the one that it holds;
/// - `has PROCESSOR CLAIMED HELD`: the frames that it claims and holds;
/// - `count FREE RESERVED USED WIRED CLAIMED HELD`, and `broken COUNT`: how many reservations were broken.
///
/// So `take 0 0 512 0 8 64` is read: page 0 of space 0 takes frame 0, where a reservation for it has at most 512 pages, and seven pages more, each
/// 64 behind the one before, take frames 64, 128 and so on.
static SCENES: [(u32, [bool; 3], &str); 21] = [
    // Of two reservations the one that was allocated from least recently is broken.
    (
        1024,
        [true, true, true],
        "\
take 0 0 512 0
take 1 0 512 512
take 0 1 512 1
take 2 0 512 576
broken 1
",
    ),
    // The second reservation of the row begins beside the one part of the first that has a used place.
    (
        512,
        [true, true, true],
        "\
take 0 0 512 0
take 0 512 512 64
count 384 126 2 0 0 0
broken 1
",
    ),
    // Each part of the first has a used place, so its lowest part is broken too.
    (
        512,
        [true, true, true],
        "\
take 0 0 512 0 8 64
take 0 512 512 8
broken 1
",
    ),
    // An older reservation that can give back more is left alone.
    (
        1024,
        [true, true, true],
        "\
take 1 0 512 0
take 0 0 512 512 8 64
take 2 0 8 520
broken 1
",
    ),
    // The part that stayed of a broken reservation is the next to be broken.
    (
        512,
        [true, true, true],
        "\
take 0 0 512 0
take 0 512 512 64 7 64
take 0 960 512 8
broken 2
",
    ),
    // Pages of a space in the middle, and of the last one that there may be. Space 7's reservation is broken, whose latest page
    // allocation is least recent; and the extent of 512 pages round its last page here meets what stayed of it.
    (
        1024,
        [true, true, true],
        "\
take 0 0 512 0
take 7 0 512 512
take 0 1 512 1
take 15 0 512 576
take 7 1 512 513
take 7 64 512 640
broken 1
",
    ),
    // The fourth page is in no reservation, and eight of the 496 frames that were given back are for it.
    (
        512,
        [true, false, true],
        "\
take 0 0 512 0
take 0 9 512 9
take 1 0 512 16
take 0 16 512 24
take 0 1 512 1
take 0 10 512 10
broken 1
",
    ),
    // Eight parts, of which one stays.
    (
        512,
        [false, true, true],
        "\
take 0 0 512 0
take 0 9 512 9
take 1 0 512 64
take 0 16 512 16
take 0 64 512 128
broken 1
",
    ),
    // The lowest part of 64 frames is broken into 64, of which one stays.
    (
        512,
        [false, true, false],
        "\
take 0 0 512 0 8 64
take 1 0 512 1
take 0 1 512 2
broken 1
",
    ),
    // The first reservation has eight empty frames in a row, and the second none; but there are no pages of eight frames, so both give
    // back one, and the older one is broken.
    (
        512,
        [false, true, false],
        "\
take 0 0 64 0
take 0 64 64 64 9 8
take 0 192 64 192 5 64
take 1 0 1 1
broken 1
",
    ),
    // With no size above 64 frames the oldest of eight such reservations is broken for a page that would have as many, and gets eight.
    (
        512,
        [true, true, false],
        "\
take 0 0 512 0 8 64
take 1 0 512 8
count 48 455 9 0 0 0
broken 1
",
    ),
    // A region that may have 100 pages has eight, for want of a size between.
    (
        512,
        [true, false, true],
        "\
take 0 0 100 0
take 1 0 100 8
take 0 8 100 16
take 0 1 100 1
broken 0
",
    ),
    // There are reservations of eight frames, and none larger.
    (
        512,
        [true, false, false],
        "\
take 0 0 512 0
take 1 0 512 8
take 0 8 512 16
take 0 1 512 1
broken 0
",
    ),
    // With no size between a reservation of 512 frames is broken into single ones. The frames of three pages stay, and the others are
    // taken by the blocks that are free then: smaller blocks before larger ones, and of equal ones the lower first.
    (
        512,
        [false, false, true],
        "\
take 0 0 1024 0
take 0 5 1024 5
take 0 300 1024 300
count 0 509 3 0 0 0
take 1 0 1024 1
count 508 0 4 0 0 0
take 1 1 1024 4
take 1 2 1024 301
take 1 3 1024 2 2
take 1 5 1024 6 2
take 1 7 1024 302 2
take 1 9 1024 296 4
take 1 13 1024 8 8
take 1 21 1024 288 8
take 1 29 1024 16 16
take 1 45 1024 304 16
take 1 61 1024 32 32
take 1 93 1024 256 32
take 1 125 1024 64 64
take 1 189 1024 320 64
take 1 253 1024 128 128
take 1 381 1024 384 128
count 0 0 512 0 0 0
give 0 0 0 -
take 1 509 1024 0
give 0 5 5 -
count 1 0 511 0 0 0
take 1 510 1024 5
give 0 300 300 -
take 1 511 1024 300
broken 1
",
    ),
    // With base pages alone a page takes the first frame of the smallest free block.
    (
        512,
        [false, false, false],
        "\
take 0 0 1024 0 512
give 0 5 5 - 3
give 0 100 100 -
give 0 256 256 - 4
count 8 0 504 0 0 0
take 1 0 1024 5
take 1 1 1024 100
take 1 2 1024 6 2
take 1 4 1024 256 4
count 0 0 512 0 0 0
broken 0
",
    ),
    // Single frames that come back make up blocks again, and an extent is taken of the least one that holds it. Then the oldest of
    // these three reservations is broken.
    (
        512,
        [true, false, false],
        "\
take 0 0 1 0 512
give 0 17 17 -
give 0 24 24 - 8
give 0 16 16 -
give 0 18 18 - 6
give 0 40 40 - 8
take 1 0 8 40
take 1 8 8 16
take 1 16 8 24
count 0 21 491 0 0 0
take 1 24 1 41
count 6 14 492 0 0 0
broken 1
",
    ),
    // All frames of the largest pool come back, each fifth one first, and make up blocks of 512.
    (
        32768,
        [false, false, true],
        "\
take 0 0 1 0 32768
take 1 0 1 -
give 0 0 0 - 6554 5
give 0 1 1 - 6554 5
give 0 2 2 - 6554 5
give 0 3 3 - 6553 5
give 0 4 4 - 6553 5
count 32768 0 0 0 0 0
take 1 0 512 0 64 512
count 0 32704 64 0 0 0
",
    ),
    // The first in that is neither wired nor claimed is the victim.
    (
        512,
        [false, false, false],
        "\
none 0 0 0 0
take 0 0 1 0 4
claim 0 0 0 0
claim 2 0 1 1
unclaim 2 1
claim 1 0 1 1
unclaim 0 0
has 0 - -
has 1 1 -
claim 3 0 0 0
unclaim 3 0
give 0 0 0 -
claim 0 0 2 2
wire 1 0 1 0
take 0 4 1 4
claim 2 0 3 3
claim 3 0 4 4
count 507 0 5 1 4 0
unclaim 1 1
give 0 1 1 -
none 1 1 3 0
",
    ),
    // A frame is carved out of a reservation of every size.
    (
        512,
        [true, true, true],
        "\
take 0 0 1 0
claim 0 0 0 0
give 0 0 0 0
has 0 - 0
count 511 0 0 0 0 1
drop 0 0
has 0 - -
take 0 12 8 4
count 504 7 1 0 0 0
claim 0 0 12 4
give 0 12 4 0
count 511 0 0 0 0 1
drop 0 4
take 0 96 64 32
claim 1 0 96 32
give 0 96 32 1
count 511 0 0 0 0 1
drop 1 32
take 0 256 512 256
count 0 511 1 0 0 0
claim 0 0 256 256
give 0 256 256 0
count 511 0 0 0 0 1
drop 0 256
count 512 0 0 0 0 0
broken 0
",
    ),
    // All frames are used. Each of the pages that may go is claimed, and then none is left until the first gives its frame up, which
    // isn't free until it is dropped.
    (
        512,
        [true, true, true],
        "\
take 0 0 1 0 3
wire 1 3 1 3 509
count 0 0 512 509 0 0
claim 0 0 0 0
claim 1 0 1 1
claim 2 0 2 2
none 3 509 3 0
give 0 0 0 0
none 3 509 2 1
wire 1 512 1 -
drop 0 0
wire 1 512 1 0
none 3 510 2 0
",
    ),
    // The frame that a processor holds is free for a page, which may take another.
    (
        512,
        [true, false, false],
        "\
take 0 0 1 0 512
claim 0 0 0 0
give 0 0 0 0
use 1 0 1 0 0
has 0 - -
claim 0 0 1 1
give 0 1 1 0
give 1 0 0 -
count 1 0 510 0 0 1
use 1 1 1 0 0
count 1 0 511 0 0 0
",
    ),
];

/// A place for each of so many frames, at its number, while a page has it.
fn no_frames(rt: &impl Abort, alloc: Global, count: u32) -> Vec<Option<Frame>> {
    let mut frames = Vec::new(alloc);
    for _ in 0..count {
        frames.push(None).expect(rt, NO_MEMORY);
    }
    frames
}

/// A pool for four processors of which all frames are free.
fn pool_of(rt: &impl Abort, alloc: Global, frames: u32, [one, two, three]: [bool; 3]) -> Pool {
    assert!(rt; frames % 512 == 0 && frames <= 32_768);
    let made = Pool::create(alloc, frames, 4, Sizes::of(one, two, three));
    made.expect(rt, NO_MEMORY)
}

/// A page without a frame takes one, where one can be had: after this processor, where one is named, has dropped the one that it holds.
fn take(
    rt: &impl Abort,
    pool: &mut Pool,
    holder: Option<u32>,
    (space, page): (u32, u32),
    want: &Want,
) -> Option<Frame> {
    assert!(rt; space < 16 && want.low <= page && page < want.high && want.high <= PAGES);
    assert!(rt; 1 <= want.cap && pool.has_room() && pool.frame_of(space, page).is_none());
    let Some(processor) = holder else {
        return pool.take(space, page, want).ok();
    };
    assert!(rt; pool.held_by(processor).is_some());
    Some(pool.use_held(processor, space, page, want))
}

/// Takes a frame as the row of a `take`, a `wire` or a `use` says, for the page of this distance behind its own, and answers its number.
fn took(
    rt: &impl Abort,
    pool: &mut Pool,
    frames: &mut [Option<Frame>],
    row: &[&str; 8],
    behind: u32,
) -> Option<u32> {
    let [call, space, page, cap, _, processor, ..] = *row;
    let want = Want {
        low: 0,
        high: PAGES,
        cap: count(cap),
        wired: call == "wire",
    };
    let holder = if call == "use" {
        number(processor)
    } else {
        None
    };
    let at = (count(space), count(page).wrapping_add(behind));
    let frame = take(rt, pool, holder, at, &want)?;
    let number = frame.number();
    *frames.get_mut(number as usize)? = Some(frame);
    Some(number)
}

/// The frame of this number, which a page had.
fn taken_out(frames: &mut [Option<Frame>], number: u32) -> Option<Frame> {
    frames.get_mut(number as usize)?.take()
}

/// A page gives its frame up, and who holds it then is answered.
fn give(rt: &impl Abort, pool: &mut Pool, space: u32, page: u32, frame: Frame) -> Option<u32> {
    assert!(rt; space < 16 && page < PAGES);
    assert!(rt; pool.frame_of(space, page) == Some(frame.number()));
    pool.give(space, page, frame)
}

/// Whether a frame was found for a processor to claim, and then the space, the page and the frame; or else how many are wired, claimed
/// and held.
fn claim(rt: &impl Abort, pool: &mut Pool, processor: u32) -> (bool, [u32; 3]) {
    assert!(rt; pool.has_room() && (processor as usize) < pool.processors());
    assert!(rt; pool.claimed_by(processor).is_none() && pool.held_by(processor).is_none());
    match pool.claim(processor) {
        Ok(victim) => (true, [victim.space, victim.page, victim.frame]),
        Err(none) => (false, [none.wired, none.claimed, none.held]),
    }
}

fn unclaim(rt: &impl Abort, pool: &mut Pool, processor: u32) -> u32 {
    assert!(rt; pool.has_room() && pool.claimed_by(processor).is_some());
    assert!(rt; pool.collect(processor) == Collected::Claimed);
    pool.unclaim(processor)
}

fn drop_held(rt: &impl Abort, pool: &mut Pool, processor: u32) -> u32 {
    assert!(rt; pool.has_room() && pool.held_by(processor).is_some());
    assert!(rt; pool.collect(processor) == Collected::Held);
    pool.drop_held(processor)
}

/// How many frames are free, reserved, used, wired, claimed and held.
fn counts(pool: &Pool) -> [u32; 6] {
    let counts = pool.counts();
    [
        counts.free,
        counts.reserved,
        counts.used,
        counts.wired,
        counts.claimed,
        counts.held,
    ]
}

/// The number of a word, and this distance behind it. None for a dash.
fn number_behind(word: &str, distance: u32) -> Option<u32> {
    let number = number(word)?;
    Some(number.wrapping_add(distance))
}

/// Whether the pages of a row, which may be several, take the frames that it names.
fn take_all(
    rt: &impl Abort,
    pool: &mut Pool,
    frames: &mut [Option<Frame>],
    row: &[&str; 8],
) -> bool {
    for i in 0..count(row[5]).max(1) {
        let behind = i.wrapping_mul(count(row[6]).max(1));
        if took(rt, pool, frames, row, behind) != number_behind(row[4], behind) {
            return false;
        }
    }
    true
}

/// Whether the pages of a row, which may be several, give their frames up to the claimer that it names.
fn give_all(
    rt: &impl Abort,
    pool: &mut Pool,
    frames: &mut [Option<Frame>],
    row: &[&str; 8],
) -> bool {
    for i in 0..count(row[5]).max(1) {
        let behind = i.wrapping_mul(count(row[6]).max(1));
        let page = count(row[2]).wrapping_add(behind);
        let frame = count(row[3]).wrapping_add(behind);
        let frame = taken_out(frames, frame).expect(rt, "no page has the frame");
        if give(rt, pool, count(row[1]), page, frame) != number(row[4]) {
            return false;
        }
    }
    true
}

/// Whether a step goes as its row says.
fn goes(rt: &impl Abort, pool: &mut Pool, frames: &mut [Option<Frame>], row: &str) -> bool {
    let row = words(row);
    let [call, first, second, third, fourth, fifth, sixth, _] = row;
    let processor = count(first);
    match call {
        "take" | "wire" => take_all(rt, pool, frames, &row),
        "use" => took(rt, pool, frames, &row, 0) == number(fourth),
        "give" => give_all(rt, pool, frames, &row),
        "claim" => {
            let victim = [count(second), count(third), count(fourth)];
            claim(rt, pool, processor) == (true, victim)
        }
        "none" => {
            let kept = [count(second), count(third), count(fourth)];
            claim(rt, pool, processor) == (false, kept)
        }
        "unclaim" => unclaim(rt, pool, processor) == count(second),
        "drop" => drop_held(rt, pool, processor) == count(second),
        "has" => {
            pool.claimed_by(processor) == number(second) && pool.held_by(processor) == number(third)
        }
        "count" => {
            let wanted = [
                count(first),
                count(second),
                count(third),
                count(fourth),
                count(fifth),
                count(sixth),
            ];
            counts(pool) == wanted
        }
        _ => pool.preempted() == u64::from(count(first)),
    }
}

/// Asserts that the steps go as their rows say.
fn go(rt: &impl Abort, pool: &mut Pool, frames: &mut [Option<Frame>], rows: &str) {
    for row in rows.lines() {
        assert!(rt; goes(rt, pool, frames, row), "{row} of {rows}");
    }
}

/// Asserts that the steps of a scene go as their rows say, in a new pool.
fn play(rt: &impl Abort, alloc: Global, count: u32, sizes: [bool; 3], rows: &str) {
    let mut frames = no_frames(rt, alloc, count);
    let mut pool = pool_of(rt, alloc, count, sizes);
    go(rt, &mut pool, frames.as_mut_slice(), rows);
    drop(pool);
}

#[test]
fn each_call_does_what_the_rules_say(rt: HostRuntime) {
    for &(frames, sizes, rows) in SCENES.iter() {
        play(&rt, rt.alloc(), frames, sizes, rows);
    }
}
