//! What a change of one page does to the tiles.

ghost use Rattle.std.specs.Prelude.{◌≡◌, ◌<◌, ℕ, false, [], Option, None, IfSome};
ghost use Rattle.pager_model.specs.Bounds.{space_pages};
ghost use Rattle.tiles.specs.Changes.{AreChanges, IsRound, IsTileChange, came_of, frame_before, frame_within, gone_of, moves_of};
ghost use Rattle.pager_model.specs.declared.tile.Mapping.{Mapping};
ghost use Rattle.tiles.specs.Resident.{Maps, Resident, mapping_at};

use crate::moves::Moves;
use crate::pages::TileChange;
use crate::tile_list::{TileList, size_of};
use pager_model::{Sizes, Tile};
use std::marker::Model;

/// Which tiles a change of one page took and made. They follow from the page's own tile before the change and after it, and so do the moves by
/// each set of sizes; they are told where they are asked for.
#[derive(Debug, Drop)]
pub struct Changes {
    page: u32,
    before: Option<Tile>,
    after: Option<Tile>,
}

impl Model for Changes {
    ghost use Rattle.tiles.specs.Changes.{PageChange, IsTold};

    ghost Value = { PageChange };

    ghost view = { λ c. record { page = c.page; before = c.before; after = c.after } };

    ghost invariant = { λ c. IsTold (record { page = c.page; before = c.before; after = c.after }) };
}

impl Changes {
    /// The changes where each page is as it was.
    pub(crate) fn none() -> Changes
        ensures changes { (old new : Resident) → ((p : ℕ) → mapping_at new p ≡ mapping_at old p) → AreChanges old new result }
        ensures frame { frame_before result ≡ None }
    {
        Changes {
            page: 0,
            before: None,
            after: None,
        }
    }

    /// The changes where a page alone is changed, with the change of its tile.
    pub(crate) fn of(page: u32, change: TileChange) -> Changes
        requires page { page < space_pages }
        requires before { IfSome change.before (IsRound page) }
        requires after { IfSome change.after (IsRound page) }
        ensures changes { (old new : Resident) (given : Option Mapping) → Maps page given old new → IsTileChange page old new change → AreChanges old new result }
        ensures frame { frame_before result ≡ frame_within page change.before }
    {
        Changes {
            page,
            before: change.before,
            after: change.after,
        }
    }

    /// How many tiles of size 1 or more came and went by some sizes, and where.
    pub fn moves(&self, sizes: Sizes) -> Moves
        ensures { result ≡ moves_of sizes self.now }
    {
        let before = sizes.within(size_of(&self.before));
        let after = sizes.within(size_of(&self.after));
        if self.before.is_none() && after.level() == 0 {
            return Moves::NONE;
        }
        Moves::of_one(self.page, before, after)
    }

    /// The frame that the page had before, where it was resident. No look-up is made for it: the page's tile before tells it.
    pub fn frame_before(&self) -> Option<u32>
        ensures { result ≡ frame_before self.now }
    {
        let tile = self.before?;
        Some(tile.frame + (self.page - tile.extent.first))
    }

    /// The tiles that are none any more.
    pub fn gone(&self) -> TileList
        ensures { result ≡ gone_of self.now }
    {
        TileList::coming(self.page, self.after, self.before)
    }

    /// The tiles that were none before.
    pub fn came(&self) -> TileList
        ensures { result ≡ came_of self.now }
    {
        TileList::coming(self.page, self.before, self.after)
    }

    /// Whether some tile may be none any more: none went where the page had no tile before and has one of one page at most.
    pub fn takes_any(&self) -> bool
        ensures { result ≡ false → gone_of self.now ≡ [] }
    {
        self.before.is_some() || size_of(&self.after).level() > 0
    }
}
