//! The calls of the set of free frames, each with a counter of steps of its own that begins at 0.

ghost use Rattle.std.specs.Prelude.{◌≡◌, ℕ, ◌+◌, ◌^◌, ◌<◌, ◌≤◌, false, true, length, slice_index_or, MatchOption};
ghost use Rattle.pager_model.specs.Extents.{IsExtent};
ghost use Rattle.pager_model.specs.FreeBlocks.{choice, with_range};

use buddy_extents::Free;
use pager_model::{Extent, Size, Steps};
use std::marker::Brand;
use std::sync::ledger::{Blank, Ledger};

/// Takes the chosen extent of this size out of the free frames, and says its first frame.
pub(crate) fn take(free: &mut Free, size: Size) -> Option<u32>
    ensures chosen { result ≡ choice free.old size }
    ensures taken { MatchOption result (free.new ≡ free.old)
        (λ first. free.new ≡ with_range free.old first (8 ^ size) false) }
{
    take_counted::<Brand>(free, size, Blank::new(1))
}

fn take_counted<L: Ledger>(free: &mut Free, size: Size, blank: Blank) -> Option<u32>
    requires name { blank.name ≡ L.name }
    requires parts { blank.parts ≡ L.parts }
    requires share { 0 < blank.parts }
    ensures chosen { result ≡ choice free.old size }
    ensures taken { MatchOption result (free.new ≡ free.old)
        (λ first. free.new ≡ with_range free.old first (8 ^ size) false) }
{
    let (book, share) = blank.open::<L>();
    free.take(size, &mut Steps::begin(book, share))
}

/// Puts an extent of frames, of which none is free, into the free frames.
pub(crate) fn give(free: &mut Free, extent: Extent)
    requires aligned { IsExtent extent.size extent.first }
    requires within { extent.first + 8 ^ extent.size ≤ length free.old }
    requires taken { (frame : ℕ) → extent.first ≤ frame → frame < extent.first + 8 ^ extent.size
        → slice_index_or free.old frame false ≡ false }
    ensures { free.new ≡ with_range free.old extent.first (8 ^ extent.size) true }
{
    give_counted::<Brand>(free, extent, Blank::new(1));
}

fn give_counted<L: Ledger>(free: &mut Free, extent: Extent, blank: Blank)
    requires name { blank.name ≡ L.name }
    requires parts { blank.parts ≡ L.parts }
    requires share { 0 < blank.parts }
    requires aligned { IsExtent extent.size extent.first }
    requires within { extent.first + 8 ^ extent.size ≤ length free.old }
    requires taken { (frame : ℕ) → extent.first ≤ frame → frame < extent.first + 8 ^ extent.size
        → slice_index_or free.old frame false ≡ false }
    ensures { free.new ≡ with_range free.old extent.first (8 ^ extent.size) true }
{
    let (book, share) = blank.open::<L>();
    free.give(extent, &mut Steps::begin(book, share));
}
