//! How many entries there are of each size.

ghost use Rattle.std.specs.Prelude.{◌+◌, ◌<◌, ◌≤◌, ◌^◌, slice_index};
ghost use Rattle.tiles.specs.KeptEntries.{Grows};

use pager_model::Size;

/// So many entries of a size came.
pub(crate) fn add(counts: &mut [u32; 4], size: Size, entries: u32)
    requires { slice_index counts.old size + entries < 2 ^ 32 }
    ensures { Grows size entries counts.old counts.new }
{
    let level = size.level() as usize;
    counts[level] += entries;
}

/// So many entries of a size went.
pub(crate) fn subtract(counts: &mut [u32; 4], size: Size, entries: u32)
    requires { entries ≤ slice_index counts.old size }
    ensures { Grows size entries counts.new counts.old }
{
    let level = size.level() as usize;
    counts[level] -= entries;
}
