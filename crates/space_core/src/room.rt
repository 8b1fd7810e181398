//! What a space takes of memory.

ghost use Rattle.std.specs.Prelude.{◌≡◌, ◌≤◌, [], replicate, IfOk};
ghost use Rattle.space_core.specs.Pages.{IsFresh};
ghost use Rattle.pager_model.specs.Bounds.{most_frames, most_actors};

use crate::table::PageTable;
use pager_model::{NoMemory, Sizes};
use std::alloc::Global;
use std::marker::Model;
use tlb_images::Images;

/// All the memory that a space ever takes, but for that of its store's writes.
#[derive(Drop)]
pub struct SpaceRoom {
    /// No page is resident, and none has rights of its own.
    table: PageTable,
    /// For each processor an image without tiles.
    images: Images,
}

impl Model for SpaceRoom {
    ghost use Rattle.std.specs.Prelude.{◌≡◌, [], length, replicate};
    ghost use Rattle.space_core.specs.Pages.{IsFresh};
    ghost use Rattle.space_core.specs.Rooms.{Capacity};

    ghost Value = { Capacity };

    ghost view = { λ r. record { frames = length r.table.frames; processors = length r.images; sizes = r.table.sizes } };

    ghost invariant = { λ r. IsFresh (length r.table.frames) r.table.sizes r.table × (r.images ≡ replicate (length r.images) []) };
}

impl SpaceRoom {
    /// Room for a space whose pages have so many frames, with an image for each of so many processors, and whose tiles have these sizes.
    pub fn create(
        alloc: Global,
        frames: u32,
        processors: u32,
        sizes: Sizes,
    ) -> Result<SpaceRoom, NoMemory>
        requires frames { frames ≤ most_frames }
        requires few { processors ≤ most_actors }
        ensures { IfOk result (λ room. room ≡ record { frames = frames; processors = processors; sizes = sizes }) }
    {
        let images = Images::create(alloc, processors)?;
        let table = PageTable::create(alloc, frames, sizes)?;
        Ok(SpaceRoom { table, images })
    }

    /// The table of its pages, and the images.
    pub fn into_parts(self) -> (PageTable, Images)
        ensures table { IsFresh self.frames self.sizes result.0 }
        ensures images { result.1 ≡ replicate self.processors [] }
    {
        (self.table, self.images)
    }
}
