//! What becomes of the images with a space's pages.

ghost use Rattle.std.specs.Prelude.{◌≡◌, ◌<◌, length, map};
ghost use Rattle.followed_space.specs.Changed.{IsChange};
ghost use Rattle.followed_space.specs.Follows.{AnswersLine};
ghost use Rattle.pager_model.specs.SpaceStates.{used_tile};
ghost use Rattle.tiles.specs.Resident.{Resident, mapping_at};
ghost use Rattle.tiles.specs.Sized.{KeepsOutsideIn};
ghost use Rattle.told_space.specs.Translations.{AreTiles, AreTouched, KeepTiles, untouched_tiles};

use crate::calls::served_page;
use followed_space::{Changed, FollowedSpace};
use pager_model::{PageRange, Sizes, Tile, What};
use tlb_images::Images;

/// The pages at which a tile may begin that is one no more.
fn touched(changed: &Changed, sizes: Sizes) -> PageRange
    ensures { (old new : Resident) → IsChange old new changed.now → KeepsOutsideIn sizes result (mapping_at old) (mapping_at new) }
{
    match changed {
        Changed::Nothing => PageRange::default(),
        Changed::Page { changes, .. } => changes.moves(sizes).touched,
        Changed::Range(range) => *range,
    }
}

/// Each image keeps what begins outside of a range, and what is a tile still.
fn keep_untouched(images: &mut Images, space: &FollowedSpace, range: PageRange, sizes: Sizes)
    ensures { images.new ≡ map (untouched_tiles sizes range (mapping_at space.now.pages)) images.old }
{
    images.retain_in(range, |tile| space.is_tile(tile, sizes));
}

/// Each image keeps what is a tile still, after a change of the pages before which it had tiles alone.
pub(crate) fn keep_tiles(
    images: &mut Images,
    space: &FollowedSpace,
    changed: &Changed,
    sizes: Sizes,
)
    requires { (old : Resident) × IsChange old space.now.pages changed.now × AreTiles sizes (mapping_at old) images.old }
    ensures { KeepTiles sizes (mapping_at space.now.pages) images.old images.new }
{
    let range = touched(changed, sizes);
    keep_untouched(images, space, range, sizes);
}

/// The tile that an entry's processor used, where it used one.
pub(crate) fn used_tile(space: &FollowedSpace, what: &What, sizes: Sizes) -> Option<Tile>
    requires { AnswersLine what.now }
    ensures { result ≡ used_tile sizes (mapping_at space.now.pages) what.now }
{
    let What::Answer { call, answered, .. } = what else {
        return None;
    };
    let page = served_page(call, answered.reply)?;
    space.tile_of(page, sizes)
}

/// The processor used a tile, where it used one.
pub(crate) fn touch(images: &mut Images, processor: u32, tile: Option<Tile>)
    requires { processor < length images.old }
    ensures { AreTouched processor tile images.old images.new }
{
    if let Some(tile) = tile {
        images.touch(processor, tile);
    }
}
