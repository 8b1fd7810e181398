//! The entries of the resident pages: each is found, and changed, in the page table.

ghost use Rattle.std.specs.Prelude.{◌≡◌, ◌≢◌, ℕ, ◌∷◌, [], ◌+◌, ◌-◌, ◌*◌, ◌/◌, ◌%◌, ◌^◌, ◌<◌, ◌≤◌, max, None, Some, IfNone, IfSome, MatchOption, option_map};
ghost use Rattle.tiles.specs.TableEntries.{entry_at, mapping_of, tile_of_entry};
ghost use Rattle.pager_model.specs.Bounds.{space_pages};
ghost use Rattle.pager_model.specs.Tiles.{tile_of, tiles_of_size};
ghost use Rattle.tiles.specs.Changes.{IsTileChange};
ghost use Rattle.tiles.specs.Kept.{FitsFrames, IsNextTile, MapsExtent};
ghost use Rattle.tiles.specs.Looks.{resident_in};
ghost use Rattle.tiles.specs.Resident.{mapping_at, frame_of_page, frames_in, Maps, NoneResident};

use crate::base::Base;
use crate::entry::TableEntry;
use crate::{counted, entries};
use pager_model::{Mapping, Size, Steps, Tile};
use std::marker::Brand;
use std::sync::ledger::{Blank, Ledger};

/// The tile of a page before a change of it, and after.
#[derive(Clone, Copy, PartialEq, Eq)]
pub(crate) struct TileChange {
    pub(crate) before: Option<Tile>,
    pub(crate) after: Option<Tile>,
}

impl Base {
    /// The entry of a page, where it is resident.
    pub(crate) fn lookup(&self, page: u32) -> Option<TableEntry>
        ensures entry { result ≡ entry_at self.now page }
        ensures mapping { option_map (λ entry. mapping_of entry page) result ≡ mapping_at self.now page }
        ensures tile { option_map tile_of_entry result ≡ tile_of (mapping_at self.now) page }
        ensures fits { IfSome result (FitsFrames self.now page) }
    {
        counted::lookup::<Brand>(&self.map, page, Blank::new(1))
    }

    /// The same, where the caller counts the looks.
    pub(crate) fn find<L: Ledger>(&self, page: u32, steps: &mut Steps<L>) -> Option<TableEntry>
        ensures entry { result ≡ entry_at self.now page }
        ensures mapping { option_map (λ entry. mapping_of entry page) result ≡ mapping_at self.now page }
        ensures fits { IfSome result (FitsFrames self.now page) }
        ensures cost { steps.new ≤ steps.old + 4 }
    {
        self.map.lookup(page, steps)
    }

    /// The entry of the lowest resident page from `from` on and before `end`.
    pub(crate) fn next(&self, from: u32, end: u32) -> Option<TableEntry>
        requires { end ≤ space_pages }
        ensures some { IfSome result (IsNextTile self.now from end) }
        ensures none { IfNone result (NoneResident (mapping_at self.now) from end) }
    {
        counted::next::<Brand>(&self.map, from, end, Blank::new(1))
    }

    /// The same, where the caller counts the looks: four at most for each page up to the one that is found or the end.
    pub(crate) fn find_next<L: Ledger>(
        &self,
        from: u32,
        end: u32,
        steps: &mut Steps<L>,
    ) -> Option<TableEntry>
        requires { end ≤ space_pages }
        ensures some { IfSome result (IsNextTile self.now from end) }
        ensures none { IfNone result (NoneResident (mapping_at self.now) from end) }
        ensures cost { MatchOption result (steps.new ≤ steps.old + 4 * (end - from)) (λ entry. steps.new + 4 * from ≤ steps.old + 4 * (max from entry.extent.first + 1)) }
    {
        self.map.next(from, end, steps)
    }

    /// The first block of 512 pages from one on and before an end that has a resident page, or the end. Each up to it is one look.
    pub(crate) fn next_block<L: Ledger>(&self, from: u32, end: u32, steps: &mut Steps<L>) -> u32
        requires range { from ≤ end }
        requires end { end ≤ 2048 }
        ensures from_on { from ≤ result }
        ensures within { result ≤ end }
        ensures bare { NoneResident (mapping_at self.now) (from * 512) (result * 512) }
        ensures used { result < end → 0 < resident_in (mapping_at self.now) (result * 512) 512 }
        ensures cost_used { result < end → steps.new + from ≤ steps.old + result + 1 }
        ensures cost_none { result ≡ end → steps.new + from ≤ steps.old + end }
    {
        self.map.used_block(from, end, steps)
    }

    /// How many tiles there are of each size.
    pub(crate) fn uncut_counts(&self) -> [u32; 4]
        ensures { result ≡ tiles_of_size (mapping_at self.now) 0 ∷ tiles_of_size (mapping_at self.now) 1 ∷ tiles_of_size (mapping_at self.now) 2 ∷ tiles_of_size (mapping_at self.now) 3 ∷ [] }
    {
        self.map.counts()
    }

    /// A page that isn't resident is, with this mapping; no other page has its frame. Its tile before and after.
    pub(crate) fn fill<L: Ledger>(
        &mut self,
        page: u32,
        mapping: Mapping,
        steps: &mut Steps<L>,
    ) -> TileChange
        requires page { page < space_pages }
        requires absent { mapping_at self.old page ≡ None }
        requires known { mapping.frame < frames_in self.old }
        requires other { (p : ℕ) → frame_of_page self.old p ≢ Some mapping.frame }
        ensures maps { Maps page (Some mapping) self.old self.new }
        ensures change { IsTileChange page self.old self.new result }
        ensures cost { steps.new ≤ steps.old + 58 }
    {
        let entry = entries::fill(&mut self.map, page, mapping, steps);
        TileChange {
            before: None,
            after: Some(entry.tile()),
        }
    }

    /// A page of an entry is resident no more. Its tile before and after.
    pub(crate) fn remove<L: Ledger>(
        &mut self,
        entry: TableEntry,
        page: u32,
        steps: &mut Steps<L>,
    ) -> TileChange
        requires { entry_at self.old page ≡ Some entry }
        ensures maps { Maps page None self.old self.new }
        ensures change { IsTileChange page self.old self.new result }
        ensures cost { steps.new ≤ steps.old + 46 }
    {
        entries::remove(&mut self.map, entry, page, steps);
        TileChange {
            before: Some(entry.tile()),
            after: None,
        }
    }

    /// The pages of the extent of a size from a page on, which lies in one entry, have another mapping, in the frames that they have. The page's
    /// tile before and after.
    pub(crate) fn set<L: Ledger>(
        &mut self,
        entry: TableEntry,
        size: Size,
        page: u32,
        mapping: Mapping,
        steps: &mut Steps<L>,
    ) -> TileChange
        requires there { entry_at self.old page ≡ Some entry }
        requires size { size ≤ entry.extent.size }
        requires first { page % 8 ^ size ≡ 0 }
        requires frame { mapping.frame ≡ (mapping_of entry page).frame }
        requires other { mapping ≢ mapping_of entry page }
        ensures maps { MapsExtent size page mapping self.old self.new }
        ensures change { IsTileChange page self.old self.new result }
        ensures cost { steps.new ≤ steps.old + 58 }
    {
        let after = entries::set(&mut self.map, entry, size, page, mapping, steps);
        TileChange {
            before: Some(entry.tile()),
            after: Some(after.tile()),
        }
    }
}
