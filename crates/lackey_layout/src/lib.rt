//! Where the pages of a program lie in a space of a trace.
//!
//! The program's memory is cut into pieces of 512 pages of 8 KiB, which are 4 MiB. A space has 2,048 places for pieces. A piece gets its number modulo 2,048 as
//! its place, or the next one behind it that is free, when one of its pages is asked for first; it has this place for good, and no other piece gets it. So an
//! address below 8 GiB mostly stays where it is, and each page keeps its place within 4 MiB, so that what could be a superpage still can.
#![tactic(auto)]

ghost use Rattle.std.specs.Prelude.{◌≡◌, ◌*◌, ◌/◌, ◌+◌, ◌%◌, ◌<◌, ◌≤◌, IfOk, IfSome, IfNone, None, replicate};
ghost use Rattle.lackey_layout.specs.Places.{AreTaken, AreWhole, HasNone, IsPageAt, Keeps};

mod search;

use search::{free, place};
use std::alloc::{AllocError, Global};
use std::marker::Model;

/// How many pieces a space has room for.
pub const PLACES: usize = 2048;

/// How many pages a piece has.
pub const PIECE: u64 = 512;

/// Which piece has each place of a space.
#[derive(Drop)]
pub struct Layout {
    places: Vec<Option<u64>>,
}

impl Model for Layout {
    ghost use Rattle.std.specs.Prelude.{ℕ, List, Option};
    ghost use Rattle.lackey_layout.specs.Places.{AreWhole};

    ghost Value = { List (Option ℕ) };

    ghost view = { λ a. a.places.items };

    ghost invariant = { λ a. AreWhole a.places.items };
}

impl Layout {
    /// A space without pieces.
    pub fn new(alloc: Global) -> Result<Layout, AllocError>
        ensures none { IfOk result (λ layout. layout ≡ replicate 2048 None) }
        ensures whole { IfOk result AreWhole }
    {
        Ok(Layout {
            places: vec![in alloc; None; PLACES]?,
        })
    }

    /// The page of the space at which a page of the program is, where its piece has a place.
    pub fn find(&self, page: u64) -> Option<u32>
        ensures at { IfSome result (IsPageAt self.now page) }
    {
        let place = place(self.places.as_slice(), page / PIECE)?;
        Some(page_at(place, page))
    }

    /// The page of the space at which a page of the program is. Its piece gets a place where it has none, and there is none only where all have one.
    pub fn page_of(&mut self, page: u64) -> Option<u32>
        ensures at { IfSome result (IsPageAt self.new page) }
        ensures taken { IfNone result (AreTaken self.old) }
        ensures lacks { IfNone result (HasNone self.old (page / 512)) }
        ensures same { IfNone result (self.new ≡ self.old) }
        ensures keeps { Keeps self.old self.new }
        ensures whole { AreWhole self.new }
    {
        let piece = page / PIECE;
        if let Some(place) = place(self.places.as_slice(), piece) {
            return Some(page_at(place, page));
        }
        let place = free(self.places.as_slice(), piece)?;
        self.places[place] = Some(piece);
        Some(page_at(place, page))
    }
}

/// The page at a place of a piece that is the piece's page of this number.
fn page_at(place: usize, page: u64) -> u32
    requires { place < 2048 }
    ensures { result ≡ place * 512 + page % 512 }
{
    place as u32 * 512 + (page % PIECE) as u32
}
