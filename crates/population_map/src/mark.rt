//! What is kept of an extent.

ghost use Rattle.std.specs.Prelude.{◌≡◌, ◌<◌, ◌&&◌, ◌==◌, is_none, is_some, cond};
ghost use Rattle.population_map.specs.Bits.{WithBit};
ghost use Rattle.population_map.specs.Kept.{IsCarried};
ghost use Rattle.std.specs.Int.{bit_at};

use extent_tree::Spot;
use pager_model::OptionalIndex;
use std::mem::size_of;

/// The id that an extent is placed with, if it is, and a bit for each of its eight parts: whether the part has a populated page, and
/// whether all its pages are populated.
#[derive(Clone, Copy, PartialEq, Eq)]
pub struct Mark {
    pub(crate) id: OptionalIndex,
    pub(crate) some: u8,
    pub(crate) full: u8,
}

// There is room for 24 of these for each page that may be placed, so each is kept small.
const _: () = prove!(size_of::<Spot<Mark>>() == 16);

/// The mask with the bit of a part set or cleared.
fn with_bit(mask: u8, part: u32, is_set: bool) -> u8
    requires { part < 8 }
    ensures { WithBit mask result part is_set }
{
    if is_set {
        mask | 1 << part
    } else {
        mask & !(1 << part)
    }
}

/// Whether the bit of a part is set.
pub(crate) fn has_bit(mask: u8, part: u32) -> bool
    requires { part < 8 }
    ensures { bit_at mask part ≡ cond result 1 0 }
{
    mask >> part & 1 == 1
}

impl Mark {
    /// Nothing.
    pub(crate) const NONE: Mark = Mark {
        id: OptionalIndex::NONE,
        some: 0,
        full: 0,
    };

    /// Whether the extent is placed.
    pub(crate) fn is_placed(&self) -> bool
        ensures { result ≡ is_some self.now.id }
    {
        self.id.get().is_some()
    }

    /// Whether nothing is kept.
    pub(crate) fn is_none(&self) -> bool
        ensures { result ≡ (is_none self.now.id && self.now.some == 0 && self.now.full == 0) }
    {
        !self.is_placed() && self.some == 0 && self.full == 0
    }

    /// The mark of eight pages after one of them was populated or evicted.
    pub(crate) fn with_page(self, part: u32, is_populated: bool) -> Mark
        requires { part < 8 }
        ensures id { result.id ≡ self.id }
        ensures some { WithBit self.some result.some part is_populated }
        ensures full { result.full ≡ result.some }
    {
        let some = with_bit(self.some, part, is_populated);
        Mark {
            id: self.id,
            some,
            full: some,
        }
    }

    /// The mark after the mark of a part changed.
    pub(crate) fn with_part(self, part: u32, below: Mark) -> Mark
        requires { part < 8 }
        ensures { IsCarried self result part below }
    {
        Mark {
            id: self.id,
            some: with_bit(self.some, part, below.some != 0),
            full: with_bit(self.full, part, below.full == u8::MAX),
        }
    }
}
