//! The image of one processor. It takes all its memory where it is created.

ghost use Rattle.std.specs.Prelude.{◌≡◌, ◌<◌, ◌≤◌, [], ◌∷◌, ◌+◌, Bool, true, false, Some, length, filter, count_by, slice_index_or, remove, IfOk};
ghost use Rattle.std.specs.Fn.{FnReturnsAt};
ghost use Rattle.std.specs.Option.{option_to_list};
ghost use Rattle.std.specs.List.{list_any, position};
ghost use Rattle.pager_model.specs.declared.tile.Tile.{Tile as Item};
ghost use Rattle.pager_model.specs.Images.{image_capacity, is_in_image, touched};
ghost use Rattle.pager_model.specs.Tiles.{same_tile};
ghost use Rattle.tlb_images.specs.Image.{IsImage, AnswersTest, begins_in};

use pager_model::{NoMemory, PageRange, Tile};
use std::alloc::Global;
use std::marker::Model;

/// The most tiles that an image has.
const CAPACITY: usize = 128;

/// Whether the two are the same tile.
fn is_same(one: &Tile, other: &Tile) -> bool
    ensures { result ≡ same_tile one.now other.now }
{
    one == other
}

/// Whether a tile begins in a range.
pub(crate) fn begins_in(tile: &Tile, range: PageRange) -> bool
    ensures { result ≡ begins_in range tile.now }
{
    let first = tile.extent.first;
    range.first <= first && first - range.first < range.length
}

/// Whether one of the tiles begins in a range. It looks at all of them, since without an earlier way out several are looked at at once.
pub(crate) fn any_begins_in(tiles: &[Tile], range: PageRange) -> bool
    ensures { result ≡ list_any (begins_in range) tiles.now }
{
    let mut any = false;
    for tile in tiles {
        any |= begins_in(tile, range);
    }
    any
}

/// Brings the tile at a place to the front, and moves those before it one place back.
fn rotate(tiles: &mut [Tile], place: usize)
    requires { place < length tiles.old }
    ensures { (d : Item) → tiles.new ≡ slice_index_or tiles.old place d ∷ remove tiles.old place }
{
    tiles[..=place].rotate_right(1);
}

/// At most 128 tiles, the last used first, and none twice.
#[derive(Drop)]
pub struct Image {
    tiles: Vec<Tile>,
}

impl Model for Image {
    ghost use Rattle.std.specs.Prelude.{◌≤◌, List, vec_capacity};
    ghost use Rattle.pager_model.specs.declared.tile.Tile.{Tile};
    ghost use Rattle.pager_model.specs.Images.{image_capacity};
    ghost use Rattle.tlb_images.specs.Image.{IsImage};

    ghost Value = { List Tile };

    ghost view = { λ image. image.tiles.items };

    ghost invariant = { λ image. IsImage image.tiles.items × (image_capacity ≤ vec_capacity image.tiles) };
}

impl Image {
    /// An image without a tile.
    pub fn create(alloc: Global) -> Result<Image, NoMemory>
        ensures { IfOk result (λ image. image ≡ []) }
    {
        let tiles = Vec::with_capacity(alloc, CAPACITY)?;
        Ok(Image { tiles })
    }

    /// Whether a page's tile, where it has one, stands in the image: an access to the page is a hit then.
    pub fn has(&self, tile: Option<Tile>) -> bool
        ensures { result ≡ is_in_image self.now tile }
    {
        match tile {
            Some(tile) => self.position_of(&tile).is_some(),
            None => false,
        }
    }

    /// Brings the tile to the front, where it stands in the image, and tells whether it does. The tiles are the same ones then.
    pub(crate) fn bring_to_front(&mut self, tile: &Tile) -> bool
        ensures stands { result ≡ is_in_image self.old (Some tile.now) }
        ensures touched { result ≡ true → self.new ≡ touched tile.now self.old }
        ensures same_ones { (f : Item → Bool) → count_by f self.new ≡ count_by f self.old }
        ensures absent { result ≡ false → self.new ≡ self.old }
    {
        let Some(place) = self.position_of(tile) else {
            return false;
        };
        rotate(&mut self.tiles, place);
        true
    }

    /// Puts a tile to the front that doesn't stand in the image. The one that was used least recently makes room where it has to, and is the result.
    pub(crate) fn put(&mut self, tile: Tile) -> Option<Tile>
        requires { is_in_image self.old (Some tile) ≡ false }
        ensures touched { self.new ≡ touched tile self.old }
        ensures ones { (f : Item → Bool) → count_by f self.new + count_by f (option_to_list result) ≡ count_by f self.old + count_by f (tile ∷ []) }
    {
        let last = if self.tiles.len() == CAPACITY {
            self.tiles.pop()
        } else {
            None
        };
        self.tiles.insert(0, tile).unwrap();
        last
    }

    /// Its tiles.
    pub(crate) fn tiles(&self) -> &[Tile]
        ensures tiles { result.now ≡ self.now }
        ensures few { length result.now ≤ image_capacity }
    {
        &self.tiles
    }

    /// Keeps the tiles that pass the test, in their order.
    pub(crate) fn retain<F: Fn(&Tile) -> bool>(&mut self, keeps: F)
        requires callable { F.IsAlwaysCallable keeps }
        ensures kept { (test : Item → Bool) → AnswersTest (FnReturnsAt F.Fn keeps) test
            → self.new ≡ filter test self.old }
        ensures fewer { (f : Item → Bool) → count_by f self.new ≤ count_by f self.old }
    {
        self.tiles.retain(|tile| keeps(tile));
    }

    /// Where the tile stands, if it does.
    fn position_of(&self, tile: &Tile) -> Option<usize>
        ensures value { result ≡ position (same_tile tile.now) self.now }
        ensures image { IsImage self.now }
    {
        self.tiles.iter().position(|kept| is_same(tile, kept))
    }
}
