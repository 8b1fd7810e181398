//! The tiles that come with a change of one page.

ghost use Rattle.std.specs.Prelude.{◌≡◌, ◌+◌, ◌-◌, ◌^◌, ◌<◌, ◌≤◌, ◌++◌, ◌∷◌, [], ◌==◌, IfSome, length};
ghost use Rattle.std.specs.List.{list_any};
ghost use Rattle.pager_model.specs.Bounds.{space_pages};
ghost use Rattle.pager_model.specs.Extents.{extent_start};
ghost use Rattle.pager_model.specs.Tiles.{same_tile, size_in};
ghost use Rattle.tiles.specs.Changes.{IsRound, HasPieces, part_from, beside, cut_round};

use arrayvec::ArrayVec;
use pager_model::{Extent, Rights, Size, Tile};
use std::marker::Model;

/// The most tiles that come with a change of one page: the page's own, and seven beside it of each smaller size.
const ROOM: usize = 22;

/// A place of a list, which contracts see as its tile.
#[derive(Clone, Copy)]
struct Place {
    tile: Tile,
}

impl Model for Place {
    ghost use Rattle.pager_model.specs.declared.tile.Tile.{Tile};

    ghost Value = { Tile };

    ghost view = { λ p. p.tile };

    ghost inverse = { λ t. record { tile = t } };
}

impl Default for Place {
    /// What stands in a place that isn't used: no one reads it.
    fn default() -> Place {
        Place {
            tile: Tile {
                extent: Extent {
                    size: Size::at_level(0),
                    first: 0,
                },
                frame: 0,
                rights: Rights::NoAccess,
                dirty: false,
            },
        }
    }
}

/// Whether the two are the same tile.
fn is_same(one: &Tile, other: &Tile) -> bool
    ensures { result ≡ same_tile one.now other.now }
{
    one == other
}

/// Whether the tile has a page.
fn has_page(tile: &Tile, page: u32) -> bool
    ensures { result ≡ (extent_start tile.now.extent.size page == tile.now.extent.first) }
{
    let pages = tile.extent.size.pages();
    page / pages * pages == tile.extent.first
}

/// The part of a size of a tile from a page on.
pub(crate) fn part_from(size: Size, first: u32, whole: &Tile) -> Tile
    requires from { whole.now.extent.first ≤ first }
    requires fits { whole.now.frame + (first - whole.now.extent.first) < 2 ^ 32 }
    ensures { result ≡ part_from size first whole.now }
{
    Tile {
        extent: Extent { size, first },
        frame: whole.frame + (first - whole.extent.first),
        ..*whole
    }
}

/// At most 22 tiles.
#[derive(Drop)]
pub struct TileList {
    places: ArrayVec<Place, ROOM>,
}

impl Model for TileList {
    ghost use Rattle.std.specs.Prelude.{List};
    ghost use Rattle.pager_model.specs.declared.tile.Tile.{Tile};

    ghost Value = { List Tile };

    ghost view = { λ list. list.places.items };
}

impl TileList {
    /// A list without a tile.
    pub(crate) fn create() -> TileList
        ensures { result ≡ [] }
    {
        TileList {
            places: ArrayVec::new(),
        }
    }

    /// The tiles that come where a page's tile was the one and is the other: its own, and what is cut from the one before.
    pub(crate) fn coming(page: u32, before: Option<Tile>, after: Option<Tile>) -> TileList
        requires page { page < space_pages }
        requires round { IfSome before (IsRound page) }
        ensures { HasPieces page before after result }
    {
        let mut list = TileList::create();
        if before == after {
            return list;
        }
        if let Some(own) = &after {
            list.push(*own);
        }
        if let Some(whole) = &before {
            list.add_cut(page, whole, size_of(&after));
        }
        list
    }

    /// Adds what is cut from a tile round a page down to a size.
    fn add_cut(&mut self, page: u32, whole: &Tile, down_to: Size)
        requires page { page < space_pages }
        requires round { IsRound page whole.now }
        requires room { length self.old ≤ 1 }
        ensures { self.new ≡ self.old ++ cut_round page whole.now down_to (whole.now.extent.size - down_to) }
    {
        for level in down_to.level()..whole.extent.size.level() {
            self.add_beside(page, whole, level);
        }
    }

    /// Adds the parts of a level of a tile round a page that lie in the extent of the next level round it, but for the one that has it.
    fn add_beside(&mut self, page: u32, whole: &Tile, level: u8)
        requires page { page < space_pages }
        requires round { IsRound page whole.now }
        requires level { level < whole.now.extent.size }
        requires room { length self.old + 7 ≤ 22 }
        ensures { self.new ≡ self.old ++ beside level page whole.now 8 }
    {
        let size = Size::at_level(level);
        let pages = size.pages();
        let wide = Size::at_level(level + 1).pages();
        let first = page / wide * wide;
        let own = page / pages % 8;
        for part in 0..8 {
            if part != own {
                self.push(part_from(size, first + part * pages, whole));
            }
        }
    }

    /// Adds a tile.
    fn push(&mut self, tile: Tile)
        requires { length self.old < 22 }
        ensures { self.new ≡ self.old ++ tile ∷ [] }
    {
        self.places.push(Place { tile });
    }

    /// How many tiles there are.
    pub fn len(&self) -> usize
        ensures { result ≡ length self.now }
    {
        self.places.len()
    }

    /// Whether there is no tile.
    pub fn is_empty(&self) -> bool
        ensures { result ≡ (length self.now == 0) }
    {
        self.places.is_empty()
    }

    /// Whether a tile is one of them.
    pub fn has(&self, tile: &Tile) -> bool
        ensures { result ≡ list_any (same_tile tile.now) self.now }
    {
        self.places.iter().any(|place| is_same(tile, &place.tile))
    }

    /// Whether one of them has a page.
    pub fn has_page(&self, page: u32) -> bool
        ensures { result ≡ list_any (λ t. extent_start t.extent.size page == t.extent.first) self.now }
    {
        self.places.iter().any(|place| has_page(&place.tile, page))
    }
}

/// The size of a page's tile, and a page's where it has none.
pub(crate) fn size_of(tile: &Option<Tile>) -> Size
    ensures { result ≡ size_in tile.now }
{
    match tile {
        Some(tile) => tile.extent.size,
        None => Size::at_level(0),
    }
}
