//! What a page is mapped by.

ghost use Rattle.std.specs.Prelude.{◌≡◌, ℕ, ◌+◌, ◌-◌, ◌*◌, ◌/◌, ◌<◌, ◌≤◌, ◌^◌, true, Some};
ghost use Rattle.std.specs.List.{slice_get};
ghost use Rattle.pager_model.specs.Extents.{IsExtent};
ghost use Rattle.pager_model.specs.Tiles.{moved_by};
ghost use Rattle.tiles.specs.TableEntries.{entry_with, is_in, mapping_of, part_of, tile_of_entry};

use pager_model::{Extent, Mapping, Size, Tile};

/// It maps the pages of an extent to frames in the same order, in one region and with one right and one dirty flag.
#[derive(Clone, Copy, Debug, PartialEq, Eq)]
pub struct TableEntry {
    pub extent: Extent,
    /// The mapping of the extent's first page.
    pub mapping: Mapping,
}

impl TableEntry {
    /// The entry of the extent of a size round a page, from the mapping of its first page.
    pub fn round(size: Size, page: u32, mapping: Mapping) -> TableEntry
        ensures { result ≡ entry_with size page mapping }
    {
        let pages = size.pages();
        TableEntry {
            extent: Extent {
                size,
                first: page / pages * pages,
            },
            mapping,
        }
    }

    /// The same as a translation, which names no region.
    pub fn tile(&self) -> Tile
        ensures { result ≡ tile_of_entry self.now }
    {
        Tile {
            extent: self.extent,
            frame: self.mapping.frame,
            rights: self.mapping.rights,
            dirty: self.mapping.dirty,
        }
    }

    /// The mapping of a page from its first on.
    pub fn mapping_of(&self, page: u32) -> Mapping
        requires from { self.now.extent.first ≤ page }
        requires fits { self.now.mapping.frame + (page - self.now.extent.first) < 2 ^ 32 }
        ensures { result ≡ mapping_of self.now page }
    {
        moved(&self.mapping, page - self.extent.first)
    }

    /// The part of it of the next smaller size round a page.
    pub fn part(&self, page: u32) -> TableEntry
        requires large { 0 < self.now.extent.size }
        requires extent { IsExtent self.now.extent.size self.now.extent.first }
        requires has { is_in self.now.extent page ≡ true }
        requires fits { self.now.mapping.frame + 8 ^ self.now.extent.size ≤ 2 ^ 32 }
        ensures { result ≡ part_of self.now page }
    {
        let size = self.extent.size.smaller();
        let pages = size.pages();
        let first = page / pages * pages;
        TableEntry {
            extent: Extent { size, first },
            mapping: moved(&self.mapping, first - self.extent.first),
        }
    }
}

/// The same, so many frames further.
fn moved(mapping: &Mapping, frames: u32) -> Mapping
    requires { mapping.now.frame + frames < 2 ^ 32 }
    ensures { result ≡ moved_by frames mapping.now }
{
    Mapping {
        frame: mapping.frame + frames,
        ..*mapping
    }
}

/// The mappings of the first pages of eight parts of so many pages, from that of the first one.
pub(crate) fn parts_from(mapping: &Mapping, pages: u32) -> [Mapping; 8]
    requires { mapping.now.frame + 8 * pages < 2 ^ 32 }
    ensures { (part : ℕ) → part < 8 → slice_get result part ≡ Some (moved_by (part * pages) mapping.now) }
{
    let mut parts = [*mapping; 8];
    for part in 0..8 {
        parts[part] = moved(mapping, part as u32 * pages);
    }
    parts
}
