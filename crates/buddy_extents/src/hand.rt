//! A block in hand, which is in no set: it is cut in halves, or joined with its buddies.

ghost use Rattle.std.specs.Prelude.{◌≡◌, ℕ, ◌+◌, ◌*◌, ◌%◌, ◌<◌, ◌≤◌, List, Bool, length, replicate, true, false};
ghost use Rattle.buddy_extents.specs.Blocks.{InHand, AreBlocks, free_in};
ghost use Rattle.pager_model.specs.Bounds.{most_frames};

use crate::nodes::{LARGEST, buddy, node};
use bit_set::BitSet;
use pager_model::Steps;
use std::sync::ledger::{Blank, Ledger};

/// Cuts the block of the order `whole` round a frame down to the order `part`. The halves without the frame go into the set.
pub(crate) fn cut<L: Ledger>(
    nodes: &mut BitSet,
    frame: u32,
    whole: u32,
    part: u32,
    steps: &mut Steps<L>,
)
    requires frame { frame < most_frames }
    requires order { part ≤ whole }
    requires most { whole ≤ 9 }
    requires nodes { length nodes.old ≡ 65472 }
    ensures in_hand { (frames : ℕ) (free : List Bool) → frames ≤ most_frames
        → InHand nodes.old frames whole frame free → InHand nodes.new frames part frame free }
    ensures cost { steps.new + 6 * part ≡ steps.old + 6 * whole }
{
    let mut order = whole;
    while order > part {
        order -= 1;
        nodes.insert(node(order, buddy(order, frame)), steps);
    }
}

/// Joins the block of this order round a frame with its buddy, as long as that is in the set, and puts it in.
pub(crate) fn put_in<L: Ledger>(nodes: &mut BitSet, order: u32, frame: u32, steps: &mut Steps<L>)
    requires frame { frame < most_frames }
    requires order { order ≤ 9 }
    requires nodes { length nodes.old ≡ 65472 }
    ensures put { (frames : ℕ) (free : List Bool) → frames ≤ most_frames
        → InHand nodes.old frames order frame free → (AreBlocks nodes.new frames) × (free_in nodes.new frames ≡ free) }
    ensures cost { steps.new + 7 * order ≤ steps.old + 69 }
{
    for order in order..LARGEST {
        let beside = node(order, buddy(order, frame));
        if !nodes.has(beside, steps) {
            nodes.insert(node(order, frame), steps);
            return;
        }
        nodes.remove(beside, steps);
    }
    nodes.insert(node(LARGEST, frame), steps);
}

/// Puts the blocks of the largest order into an empty set, up to this many frames.
pub(crate) fn put_all_in<L: Ledger>(nodes: &mut BitSet, frames: u32, blank: Blank)
    requires name { blank.name ≡ L.name }
    requires parts { blank.parts ≡ L.parts }
    requires share { 0 < blank.parts }
    requires whole { frames % 512 ≡ 0 }
    requires most { frames ≤ most_frames }
    requires empty { nodes.old ≡ replicate 65472 false }
    ensures blocks { AreBlocks nodes.new frames }
    ensures free { free_in nodes.new frames ≡ replicate frames true }
{
    let (book, share) = blank.open::<L>();
    let mut steps = Steps::begin(book, share);
    for block in 0..frames / 512 {
        nodes.insert(node(LARGEST, 512 * block), &mut steps);
    }
}
