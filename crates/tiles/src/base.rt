//! The resident pages of a space, and what each change does to their tiles.

ghost use Rattle.std.specs.Int.{div_ceil};
ghost use Rattle.std.specs.Prelude.{◌≡◌, ◌≢◌, ◌∷◌, [], ℕ, ◌+◌, ◌-◌, ◌*◌, ◌/◌, ◌%◌, ◌^◌, ◌<◌, ◌≤◌, true, false, Option, None, Some, IfOk, IfNone, IfSome, option_map, slice_index};
ghost use Rattle.pager_model.specs.SizeSets.{size_within};
ghost use Rattle.pager_model.specs.Tiles.{tile_in, is_tile_in, tile_count_in, cut_to};
ghost use Rattle.pager_model.specs.declared.tile.Mapping.{Mapping};
ghost use Rattle.tiles.specs.Resident.{mapping_at, frames_in, frame_of_page, Maps, Protects, IsNextResident, NoneResident, with_flag, with_rights};
ghost use Rattle.tiles.specs.Changes.{AreChanges, IsRound, frame_before};
ghost use Rattle.tiles.specs.TableEntries.{entry_at};
ghost use Rattle.tiles.specs.Blocks.{KeepsRights, ProtectsTo, ProtectsInBlock, AreSizesOfBlock, OutsideSame};
ghost use Rattle.tiles.specs.Sized.{AreMovesIn, size_by, begins_before_in, large_tiles_begun_in, large_tiles_meeting_in};
ghost use Rattle.tiles.specs.Kept.{FitsFrames};
ghost use Rattle.tiles.specs.Looks.{looks_of_rights, resident_in};
ghost use Rattle.pager_model.specs.Bounds.{most_frames, space_pages};

use crate::changes::Changes;
use crate::counted;
use crate::entry::TableEntry;
use crate::mixed::Mixed;
use crate::moves::Moves;
use crate::tile_list::part_from;
use pager_model::{LARGEST, Mapping, NoMemory, PageRange, Rights, Size, Sizes, Steps, Tile};
use std::alloc::Global;
use std::marker::{Brand, Model};
use std::sync::ledger::{Blank, Ledger};

/// What a resident page is mapped by: its mapping, and the tile that it lies in.
#[derive(Clone, Copy, Debug, PartialEq, Eq)]
pub struct Translation {
    pub mapping: Mapping,
    pub tile: Tile,
}

/// The resident pages of a space, each mapped by its tile.
#[derive(Drop)]
pub struct Base {
    /// The entry of each resident page is its tile.
    pub(crate) map: Mixed,
}

impl Model for Base {
    ghost use Rattle.tiles.specs.Resident.{Resident};
    ghost use Rattle.tiles.specs.Kept.{ArePages};

    ghost Value = { Resident };

    ghost view = { λ b. b.map };

    ghost invariant = { λ b. ArePages b.map };
}

/// The first page behind an entry.
fn behind(entry: &TableEntry) -> u32
    requires { entry.now.extent.first + 8 ^ entry.now.extent.size < 2 ^ 32 }
    ensures { result ≡ entry.now.extent.first + 8 ^ entry.now.extent.size }
{
    entry.extent.first + entry.extent.size.pages()
}

/// The size of the largest part of an entry that begins at a page and ends by another one.
fn largest_part(entry: &TableEntry, page: u32, end: u32) -> Size
    requires { page < end }
    ensures within { result ≤ entry.now.extent.size }
    ensures first { page % 8 ^ result ≡ 0 }
    ensures last { page + 8 ^ result ≤ end }
{
    let mut size = entry.extent.size;
    while page % size.pages() != 0 || end - page < size.pages() {
        size = size.smaller();
    }
    size
}

/// The part round a page of a tile, of the largest of some sizes that fits.
fn cut_to(sizes: Sizes, page: u32, tile: &Tile) -> Tile
    requires { IsRound page tile.now }
    ensures { result ≡ cut_to sizes page tile.now }
{
    let size = sizes.within(tile.extent.size);
    let pages = size.pages();
    part_from(size, page / pages * pages, tile)
}

/// How many extents of a size begin at a page from one on and before another one; those of a page aren't counted.
fn large_begun(size: Size, from: u32, end: u32) -> u32
    requires range { from ≤ end }
    ensures small { size ≡ 0 → result ≡ 0 }
    ensures large { 0 < size → result + div_ceil from (8 ^ size) ≡ div_ceil end (8 ^ size) }
{
    if size.level() == 0 {
        return 0;
    }
    end.div_ceil(size.pages()) - from.div_ceil(size.pages())
}

/// The level of the largest of some sizes within each of the four.
fn levels_within(sizes: Sizes) -> [u8; 4]
    ensures { (k : ℕ) → k ≤ 3 → slice_index result k ≡ size_within sizes k }
{
    [
        sizes.within(Size::at_level(0)).level(),
        sizes.within(Size::at_level(1)).level(),
        sizes.within(Size::at_level(2)).level(),
        sizes.within(Size::at_level(3)).level(),
    ]
}

/// Whether a mapping has other rights.
fn has_other_rights(mapping: &Mapping, rights: Rights) -> bool
    ensures same { result ≡ false → with_rights rights mapping.now ≡ mapping.now }
    ensures other { result ≡ true → with_rights rights mapping.now ≢ mapping.now }
{
    mapping.rights != rights
}

impl Base {
    /// Room for the pages of a space in so many frames; none is resident.
    pub fn create(alloc: Global, frames: u32) -> Result<Base, NoMemory>
        requires { frames ≤ most_frames }
        ensures frames { IfOk result (λ b. frames_in b ≡ frames) }
        ensures none { IfOk result (λ b. (p : ℕ) → mapping_at b p ≡ None) }
    {
        let map = Mixed::create(alloc, frames)?;
        Ok(Base { map })
    }

    /// What is said of a page, where it is resident.
    pub fn mapping(&self, page: u32) -> Option<Mapping>
        ensures mapping { result ≡ mapping_at self.now page }
        ensures in_space { IfSome result (λ m. (page < space_pages) × (m.frame < frames_in self.now)) }
    {
        let entry = self.lookup(page)?;
        Some(entry.mapping_of(page))
    }

    /// The lowest resident page from `from` on and before `end`. Extents without a resident page are passed over.
    pub fn next_resident(&self, from: u32, end: u32) -> Option<u32>
        requires { end ≤ space_pages }
        ensures some { IfSome result (IsNextResident (mapping_at self.now) from end) }
        ensures none { IfNone result (NoneResident (mapping_at self.now) from end) }
    {
        let entry = self.next(from, end)?;
        Some(from.max(entry.extent.first))
    }

    /// What a page is mapped by, where it is resident: its mapping, and its tile by some sizes, found by one look-up.
    pub fn translate(&self, page: u32, sizes: Sizes) -> Option<Translation>
        ensures mapping { option_map (λ t. t.mapping) result ≡ mapping_at self.now page }
        ensures tile { option_map (λ t. t.tile) result ≡ tile_in sizes (mapping_at self.now) page }
        ensures in_space { IfSome result (λ t. (page < space_pages) × (t.mapping.frame < frames_in self.now)) }
    {
        let entry = self.lookup(page)?;
        Some(Translation {
            mapping: entry.mapping_of(page),
            tile: cut_to(sizes, page, &entry.tile()),
        })
    }

    /// The tile of a page by some sizes, where it is resident.
    pub fn tile_of(&self, page: u32, sizes: Sizes) -> Option<Tile>
        ensures { result ≡ tile_in sizes (mapping_at self.now) page }
    {
        let entry = self.lookup(page)?;
        Some(cut_to(sizes, page, &entry.tile()))
    }

    /// Whether it is a tile by some sizes of the pages as they are.
    pub fn is_tile(&self, tile: &Tile, sizes: Sizes) -> bool
        ensures { result ≡ is_tile_in sizes (mapping_at self.now) tile.now }
    {
        self.tile_of(tile.extent.first, sizes) == Some(*tile)
    }

    /// A page that isn't resident is, with this mapping; no other page has its frame.
    pub fn after_fill<L: Ledger>(
        &mut self,
        page: u32,
        mapping: Mapping,
        steps: &mut Steps<L>,
    ) -> Changes
        requires page { page < space_pages }
        requires absent { mapping_at self.old page ≡ None }
        requires known { mapping.frame < frames_in self.old }
        requires other { (p : ℕ) → frame_of_page self.old p ≢ Some mapping.frame }
        ensures maps { Maps page (Some mapping) self.old self.new }
        ensures changes { AreChanges self.old self.new result }
        ensures cost { steps.new ≤ steps.old + 58 }
    {
        let change = self.fill(page, mapping, steps);
        Changes::of(page, change)
    }

    /// A page is resident no more.
    pub fn after_remove<L: Ledger>(&mut self, page: u32, steps: &mut Steps<L>) -> Changes
        ensures maps { Maps page None self.old self.new }
        ensures changes { AreChanges self.old self.new result }
        ensures frame { frame_before result ≡ frame_of_page self.old page }
        ensures cost { steps.new ≤ steps.old + 50 }
    {
        let Some(entry) = self.find(page, steps) else {
            return Changes::none();
        };
        let change = self.remove(entry, page, steps);
        Changes::of(page, change)
    }

    /// The lowest resident page from `from` on and before `end` is resident no more. That page, and the frame that it had.
    pub fn take_next(&mut self, from: u32, end: u32) -> Option<(u32, u32)>
        requires { end ≤ space_pages }
        ensures some { IfSome result (λ taken. IsNextResident (mapping_at self.old) from end taken.0
            × (frame_of_page self.old taken.0 ≡ Some taken.1) × Maps taken.0 None self.old self.new) }
        ensures none { IfNone result (NoneResident (mapping_at self.old) from end × (self.new ≡ self.old)) }
    {
        let entry = self.next(from, end)?;
        let page = from.max(entry.extent.first);
        let frame = entry.mapping_of(page).frame;
        counted::remove::<Brand>(self, entry, page, Blank::new(1));
        Some((page, frame))
    }

    /// A page has this dirty flag, where it is resident.
    pub fn after_dirty<L: Ledger>(
        &mut self,
        page: u32,
        dirty: bool,
        steps: &mut Steps<L>,
    ) -> Changes
        ensures maps { Maps page (option_map (with_flag dirty) (mapping_at self.old page)) self.old self.new }
        ensures changes { AreChanges self.old self.new result }
        ensures cost { steps.new ≤ steps.old + 62 }
    {
        let Some(entry) = self.find(page, steps) else {
            return Changes::none();
        };
        if entry.mapping.dirty == dirty {
            return Changes::none();
        }
        let mapping = Mapping {
            dirty,
            ..entry.mapping_of(page)
        };
        let change = self.set(entry, Size::at_level(0), page, mapping, steps);
        Changes::of(page, change)
    }

    /// A page has these rights, where it is resident.
    pub fn after_rights_of_page<L: Ledger>(
        &mut self,
        page: u32,
        rights: Rights,
        steps: &mut Steps<L>,
    ) -> Changes
        ensures maps { Maps page (option_map (with_rights rights) (mapping_at self.old page)) self.old self.new }
        ensures changes { AreChanges self.old self.new result }
        ensures cost { steps.new ≤ steps.old + 62 }
    {
        let Some(entry) = self.find(page, steps) else {
            return Changes::none();
        };
        if !has_other_rights(&entry.mapping, rights) {
            return Changes::none();
        }
        let mapping = Mapping {
            rights,
            ..entry.mapping_of(page)
        };
        let protected = self.set(entry, Size::at_level(0), page, mapping, steps);
        Changes::of(page, protected)
    }

    /// Whether a page of a range is resident with other rights.
    fn any_has_other_rights<L: Ledger>(
        &self,
        first: u32,
        end: u32,
        rights: Rights,
        steps: &mut Steps<L>,
    ) -> bool
        requires range { first ≤ end }
        requires in_space { end ≤ space_pages }
        ensures keeps { result ≡ false → KeepsRights first end rights (mapping_at self.now) }
        ensures cost { steps.new ≤ steps.old + 4 * (end - first) }
    {
        let mut from = first;
        while let Some(entry) = self.find_next(from, end, steps) {
            if has_other_rights(&entry.mapping, rights) {
                return true;
            }
            from = behind(&entry);
        }
        false
    }

    /// The largest part of an entry that begins at a page and ends by another one has these rights, or the rest of the entry where it has them
    /// already. The first page behind it.
    fn after_rights_of_part<L: Ledger>(
        &mut self,
        entry: TableEntry,
        page: u32,
        end: u32,
        rights: Rights,
        steps: &mut Steps<L>,
    ) -> u32
        requires there { entry_at self.old page ≡ Some entry }
        requires fits { FitsFrames self.old page entry }
        requires page { page < end }
        requires end { end ≤ space_pages }
        ensures further { page < result }
        ensures within { result ≤ end }
        ensures protects { ProtectsTo page result rights self.old self.new }
        ensures cost { steps.new ≤ steps.old + 58 }
    {
        if !has_other_rights(&entry.mapping, rights) {
            return behind(&entry).min(end);
        }
        let size = largest_part(&entry, page, end);
        let mapping = Mapping {
            rights,
            ..entry.mapping_of(page)
        };
        self.set(entry, size, page, mapping, steps);
        page + size.pages()
    }

    /// The resident pages of a range have these rights.
    fn after_rights_of_all<L: Ledger>(
        &mut self,
        first: u32,
        end: u32,
        rights: Rights,
        steps: &mut Steps<L>,
    )
        requires range { first ≤ end }
        requires in_space { end ≤ space_pages }
        ensures protects { ProtectsTo first end rights self.old self.new }
        ensures cost { steps.new ≤ steps.old + 4 * (end - first) + 58 * resident_in (mapping_at self.old) first (end - first) }
    {
        let mut from = first;
        while let Some(entry) = self.find_next(from, end, steps) {
            let page = from.max(entry.extent.first);
            from = self.after_rights_of_part(entry, page, end, rights, steps);
        }
    }

    /// The sizes of the tiles by some sizes at the first of each eight pages of a block: each tile of size 1 or more begins at such a page.
    ///
    /// They are read from the nodes of the tree of entries: the block, the eight parts of it, and the eight parts of each of these.
    fn sizes_of_block<L: Ledger>(&self, block: u32, sizes: Sizes, steps: &mut Steps<L>) -> [u8; 64]
        requires { block < 2048 }
        ensures sizes { AreSizesOfBlock sizes block result (mapping_at self.now) }
        ensures small { (i : ℕ) → i < 64 → slice_index result i ≤ 3 }
        ensures cost { steps.new ≤ steps.old + 10 }
    {
        self.map
            .levels_of_block(block, &levels_within(sizes), steps)
    }

    /// The moves by some sizes of a change within a block, before which its first of each eight pages had tiles of these sizes.
    fn moves_of_block<L: Ledger>(
        &self,
        block: u32,
        before: &[u8; 64],
        sizes: Sizes,
        steps: &mut Steps<L>,
    ) -> Moves
        requires block { block < 2048 }
        requires small { (i : ℕ) → i < 64 → slice_index before.now i ≤ 3 }
        ensures moves { (old : ℕ → Option Mapping) → AreSizesOfBlock sizes block before.now old → OutsideSame block old (mapping_at self.now)
            → AreMovesIn sizes old (mapping_at self.now) result }
        ensures cost { steps.new ≤ steps.old + 10 }
    {
        let after = self.sizes_of_block(block, sizes, steps);
        let mut moves = Moves::NONE;
        for i in 0..64 {
            if before[i] != after[i] {
                let page = block * LARGEST + 8 * i as u32;
                moves = moves.and(Moves::at(page, before[i], after[i]));
            }
        }
        Moves {
            touched: PageRange {
                first: block * LARGEST,
                length: LARGEST,
            },
            ..moves
        }
    }

    /// The resident pages of a range that are in a block have these rights. The moves by some sizes.
    ///
    /// The range in the block is gone through twice, with four looks a page at most, and the sizes in the block are read twice, with ten; and each
    /// change of a part of an entry, of which there is one at most for each resident page, is 58 looks at most.
    fn after_rights_in_block<L: Ledger>(
        &mut self,
        block: u32,
        first: u32,
        length: u32,
        rights: Rights,
        sizes: Sizes,
        steps: &mut Steps<L>,
    ) -> Moves
        requires range { first + length ≤ space_pages }
        requires block { block < 2048 }
        requires from { first ≤ block * 512 + 512 }
        requires to { block * 512 ≤ first + length }
        ensures protects { ProtectsInBlock block first length rights self.old self.new }
        ensures moves { AreMovesIn sizes (mapping_at self.old) (mapping_at self.new) result }
        ensures cost { steps.new ≤ steps.old + 4116 + 58 * resident_in (mapping_at self.old) (block * 512) 512 }
    {
        let from = first.max(block * LARGEST);
        let end = (first + length).min(block * LARGEST + LARGEST);
        if !self.any_has_other_rights(from, end, rights, steps) {
            return Moves::NONE;
        }
        let before = self.sizes_of_block(block, sizes, steps);
        self.after_rights_of_all(from, end, rights, steps);
        self.moves_of_block(block, &before, sizes, steps)
    }

    /// The resident pages of a range have these rights. The moves by some sizes are those of the whole change.
    ///
    /// It goes from block to block, and passes over those without a resident page, with one look at each; a single page is changed as the others are
    /// that change one page.
    pub fn after_rights<L: Ledger>(
        &mut self,
        first: u32,
        length: u32,
        rights: Rights,
        sizes: Sizes,
        steps: &mut Steps<L>,
    ) -> Moves
        requires { first + length ≤ space_pages }
        ensures protects { Protects first length rights self.old self.new }
        ensures moves { AreMovesIn sizes (mapping_at self.old) (mapping_at self.new) result }
        ensures cost { steps.new ≤ steps.old + looks_of_rights (mapping_at self.old) first length }
    {
        if length == 1 {
            return self.after_rights_of_page(first, rights, steps).moves(sizes);
        }
        let past = (first + length).div_ceil(LARGEST);
        let mut moves = Moves::NONE;
        let mut block = self.next_block(first / LARGEST, past, steps);
        while block < past {
            moves = moves.and(self.after_rights_in_block(
                block, first, length, rights, sizes, steps,
            ));
            block = self.next_block(block + 1, past, steps);
        }
        moves
    }

    /// The size of a page's tile by some sizes, and a page's where it isn't resident.
    fn size(&self, page: u32, sizes: Sizes) -> Size
        ensures { result ≡ size_by sizes (mapping_at self.now) page }
    {
        match self.lookup(page) {
            Some(entry) => sizes.within(entry.extent.size),
            None => Size::at_level(0),
        }
    }

    /// How many tiles of size 1 or more by some sizes have a page of the range.
    pub fn tiles_meeting(&self, first: u32, length: u32, sizes: Sizes) -> u32
        requires { first + length ≤ space_pages }
        ensures { result ≡ large_tiles_meeting_in sizes first length (mapping_at self.now) }
    {
        let crossing = length > 0 && self.begins_before(first, sizes);
        self.tiles_begun(first, length, sizes) + u32::from(crossing)
    }

    /// Whether a page's tile by some sizes begins before it.
    fn begins_before(&self, page: u32, sizes: Sizes) -> bool
        ensures { result ≡ begins_before_in sizes (mapping_at self.now) page }
    {
        page % self.size(page, sizes).pages() != 0
    }

    /// How many tiles of size 1 or more by some sizes begin in the range.
    fn tiles_begun(&self, first: u32, length: u32, sizes: Sizes) -> u32
        requires { first + length ≤ space_pages }
        ensures { result ≡ large_tiles_begun_in sizes first length (mapping_at self.now) }
    {
        let end = first + length;
        let mut count = 0;
        let mut from = first;
        while let Some(entry) = self.next(from, end) {
            let page = from.max(entry.extent.first);
            from = behind(&entry).min(end);
            count += large_begun(sizes.within(entry.extent.size), page, from);
        }
        count
    }

    /// How many tiles by some sizes there are of each size: those of a size are cut into tiles of the largest of these that fits.
    pub fn counts(&self, sizes: Sizes) -> [u32; 4]
        ensures { result ≡ tile_count_in sizes (mapping_at self.now) 0 ∷ tile_count_in sizes (mapping_at self.now) 1 ∷ tile_count_in sizes (mapping_at self.now) 2 ∷ tile_count_in sizes (mapping_at self.now) 3 ∷ [] }
    {
        let whole = self.uncut_counts();
        let mut counts = [0; 4];
        for level in 0..4 {
            let size = Size::at_level(level);
            let within = sizes.within(size);
            let parts = size.pages() / within.pages();
            counts[within.level() as usize] += parts * whole[level as usize];
        }
        counts
    }
}
