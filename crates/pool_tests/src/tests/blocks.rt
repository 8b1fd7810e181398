//! The free frames: which extent is taken, whether there is one of a size, and how many frames are free.
ghost use Rattle.std.specs.Prelude.{◌≡◌, ◌<◌};

use super::{NO_MEMORY, level_of, number, size, words};
use buddy_extents::Free;
use pager_model::{Size, Steps};
use std::marker::Brand;
use std::process::Abort;
use std::sync::ledger::{Blank, Ledger};

/// Whether there is an extent of a size, and the one that is taken then.
fn take<L: Ledger>(free: &mut Free, size: Size, blank: Blank) -> (bool, Option<u32>)
    requires name { blank.name ≡ L.name }
    requires parts { blank.parts ≡ L.parts }
    requires share { 0 < blank.parts }
{
    let (book, share) = blank.open::<L>();
    let steps = &mut Steps::begin(book, share);
    (free.has(size, steps), free.take(size, steps))
}

/// Takings of 1,024 frames. Each row is `LEVEL FIRST FREE`: an extent of this level is taken, it begins with frame FIRST, and so many frames are
/// free then. So `2 512 448` is read: an extent of level 2, which has 64 frames, is taken from frame 512 on, and 448 frames are free. Where there is
/// no extent of the level FIRST is a dash, and nothing is taken.
const TAKEN: &str = "\
3 0 512
2 512 448
0 576 447
1 584 439
1 592 431
0 577 430
2 640 366
3 - 366
1 600 358
2 704 294
0 578 293
2 768 229
2 832 165
2 896 101
2 960 37
2 - 37
1 608 29
1 616 21
1 624 13
1 632 5
1 - 5
0 579 4
0 580 3
0 581 2
0 582 1
0 583 0
0 - 0
";

/// Whether a taking goes as its row says.
fn goes(free: &mut Free, row: &str) -> bool {
    let [level, first, left, ..] = words(row);
    let (has, taken) = take::<Brand>(free, size(level_of(level)), Blank::new(1));
    taken == number(first) && has == taken.is_some() && Some(free.count()) == number(left)
}

#[test]
fn takes_from_the_least_block_that_holds_the_size(rt: HostRuntime) {
    let mut free = Free::create(rt.alloc(), 1024).expect(&rt, NO_MEMORY);
    for row in TAKEN.lines() {
        assert!(rt; goes(&mut free, row), "{row}");
    }
    drop(free);
}
