//! A space's pages by the entries that map them, each changed in place.
//!
//! An entry maps the pages of an extent to frames in the same order. It is one row of a tree of extents, so to find a page's entry is to look at
//! four nodes at most, and an entry breaks into its eight parts, or eight parts join, by writes at two nodes. Each look at a root or a node, and
//! each write of one, counts as a step.

ghost use Rattle.std.specs.Prelude.{◌≡◌, ◌∷◌, [], ℕ, ◌+◌, ◌-◌, ◌*◌, ◌/◌, ◌<◌, ◌≤◌, ◌^◌, true, max, is_some, slice_index, None, Some, IfNone, IfOk, IfSome, MatchOption};
ghost use Rattle.pager_model.specs.Bounds.{most_frames, space_pages};
ghost use Rattle.pager_model.specs.Extents.{IsExtent};
ghost use Rattle.tiles.specs.declared.entry.TableEntry.{TableEntry as Item};
ghost use Rattle.tiles.specs.TableEntries.{entry_at, entry_size, extent_round, frames_in, pages_in, entry_count, is_in, part_of, AreParts, IsNextEntry, Maps, NoneMapped};

use crate::entry::{TableEntry, parts_from};
use crate::{counts, levels, parts};
use extent_tree::ExtentTree;
use pager_model::{Extent, Mapping, NoMemory, Size, Steps};
use std::alloc::Global;
use std::marker::Model;
use std::sync::ledger::Ledger;

/// The extents of 512 pages of a space.
const ROOTS: u32 = 2048;

/// The entries that map a space's pages, of all four sizes mixed; no two map a page.
///
/// Contracts see the entry of each page (`entry_at`), how many frames there is room for (`frames_in`) and how many pages are mapped
/// (`pages_in`). There is room for three nodes of the tree for each page that may be mapped, since each node is of an extent with such a
/// page. `create` takes it, and nodes are written as they are first used.
#[derive(Drop)]
pub struct Mixed {
    tree: ExtentTree<Mapping>,
    /// How many entries there are of each size.
    counts: [u32; 4],
}

impl Model for Mixed {
    ghost use Rattle.extent_tree.specs.Rows.{Arena};
    ghost use Rattle.pager_model.specs.declared.tile.Mapping.{Mapping as Item};
    ghost use Rattle.tiles.specs.KeptEntries.{IsKept, AreCounts};

    ghost Value = { Arena Item };

    ghost view = { λ m. m.tree };

    ghost invariant = { λ m. IsKept m.tree × AreCounts m.counts m.tree };
}

impl Mixed {
    /// No entry, and room for the mappings of so many frames.
    pub fn create(alloc: Global, frames: u32) -> Result<Mixed, NoMemory>
        requires { frames ≤ most_frames }
        ensures frames { IfOk result (λ m. frames_in m ≡ frames) }
        ensures none { IfOk result (λ m. (page : ℕ) → entry_at m page ≡ None) }
        ensures pages { IfOk result (λ m. pages_in m ≡ 0) }
    {
        let tree = ExtentTree::create(alloc, ROOTS, 3 * frames)?;
        Ok(Mixed {
            tree,
            counts: [0; 4],
        })
    }

    /// The entry that maps a page, where one does.
    pub fn lookup<L: Ledger>(&self, page: u32, steps: &mut Steps<L>) -> Option<TableEntry>
        ensures entry { result ≡ entry_at self.now page }
        ensures cost { steps.new ≤ steps.old + 4 }
    {
        let row = self.tree.row_round(page, steps)?;
        Some(TableEntry::round(row.size, page, row.value))
    }

    /// The entry of the lowest page from `from` on and before `end` that is mapped. Pages that no entry maps are passed over by extents, and all at once
    /// where nothing is mapped.
    pub fn next<L: Ledger>(&self, from: u32, end: u32, steps: &mut Steps<L>) -> Option<TableEntry>
        requires { end ≤ space_pages }
        ensures some { IfSome result (IsNextEntry self.now from end) }
        ensures none { IfNone result (NoneMapped self.now from end) }
        ensures cost { MatchOption result (steps.new ≤ steps.old + 4 * (end - from)) (λ entry. steps.new + 4 * from ≤ steps.old + 4 * (max from entry.extent.first + 1)) }
        ensures nothing { ((page : ℕ) → entry_at self.now page ≡ None) → steps.new ≡ steps.old }
        ensures empty { from ≤ end → NoneMapped self.now (from / 512 * 512) ((end + 511) / 512 * 512) → steps.new + from / 512 ≤ steps.old + (end + 511) / 512 }
    {
        if self.is_empty() {
            return None;
        }
        let row = self.tree.next(from, end, steps)?;
        Some(TableEntry::round(row.size, row.page, row.value))
    }

    /// The first block of 512 pages from one on and before an end that has a mapped page, or the end. Each up to it is one look.
    pub fn used_block<L: Ledger>(&self, from: u32, end: u32, steps: &mut Steps<L>) -> u32
        requires range { from ≤ end }
        requires end { end ≤ 2048 }
        ensures from_on { from ≤ result }
        ensures within { result ≤ end }
        ensures bare { NoneMapped self.now (from * 512) (result * 512) }
        ensures used { result < end → (page : ℕ) × (page / 512 ≡ result) × (is_some (entry_at self.now page) ≡ true) }
        ensures cost_used { result < end → steps.new + from ≤ steps.old + result + 1 }
        ensures cost_none { result ≡ end → steps.new + from ≤ steps.old + end }
    {
        self.tree.used_root(from, end, steps)
    }

    /// What is said of the level of the entry that maps the first of each eight pages of a block of 512, and of level 0 where none does.
    pub fn levels_of_block<L: Ledger>(
        &self,
        block: u32,
        said: &[u8; 4],
        steps: &mut Steps<L>,
    ) -> [u8; 64]
        requires { block < 2048 }
        ensures levels { (i : ℕ) → i < 64 → slice_index result i ≡ slice_index said.now (entry_size (entry_at self.now (block * 512 + 8 * i))) }
        ensures cost { steps.new ≤ steps.old + 10 }
    {
        levels::levels_of_block(&self.tree, block, said, steps)
    }

    /// Maps the pages of an entry's extent, of which none is mapped.
    pub fn put<L: Ledger>(&mut self, entry: &TableEntry, steps: &mut Steps<L>)
        requires extent { IsExtent entry.now.extent.size entry.now.extent.first }
        requires inside { entry.now.extent.first < space_pages }
        requires apart { (page : ℕ) → is_in entry.now.extent page ≡ true → entry_at self.old page ≡ None }
        requires room { pages_in self.old + 8 ^ entry.now.extent.size ≤ frames_in self.old }
        ensures entries { Maps entry.now.extent (λ _. Some entry.now) self.old self.new }
        ensures pages { pages_in self.new ≡ pages_in self.old + 8 ^ entry.now.extent.size }
        ensures cost { steps.new ≤ steps.old + 10 }
    {
        let Extent { size, first } = entry.extent;
        self.tree.put(size, first, entry.mapping, steps);
        counts::add(&mut self.counts, size, 1);
    }

    /// Maps the pages of an entry's extent otherwise, which is the extent of an entry that is there.
    pub fn replace<L: Ledger>(&mut self, entry: &TableEntry, steps: &mut Steps<L>)
        requires { (before : Item) × (entry_at self.old entry.now.extent.first ≡ Some before) × (before.extent ≡ entry.now.extent) }
        ensures entries { Maps entry.now.extent (λ _. Some entry.now) self.old self.new }
        ensures pages { pages_in self.new ≡ pages_in self.old }
        ensures cost { steps.new ≤ steps.old + 10 }
    {
        // Named so that the proof sees that the counts stay as they are.
        let _ = &self.counts;
        let Extent { size, first } = entry.extent;
        self.tree.put(size, first, entry.mapping, steps);
    }

    /// Unmaps the pages of an entry that is there.
    pub fn remove<L: Ledger>(&mut self, entry: &TableEntry, steps: &mut Steps<L>)
        requires { entry_at self.old entry.now.extent.first ≡ Some entry.now }
        ensures entries { Maps entry.now.extent (λ _. None) self.old self.new }
        ensures pages { pages_in self.new + 8 ^ entry.now.extent.size ≡ pages_in self.old }
        ensures cost { steps.new ≤ steps.old + 10 }
    {
        let Extent { size, first } = entry.extent;
        self.tree.remove(size, first, steps);
        counts::subtract(&mut self.counts, size, 1);
    }

    /// Breaks an entry that is there into its eight parts.
    pub fn split<L: Ledger>(&mut self, entry: &TableEntry, steps: &mut Steps<L>)
        requires large { 0 < entry.now.extent.size }
        requires there { entry_at self.old entry.now.extent.first ≡ Some entry.now }
        requires fits { entry.now.mapping.frame + 8 ^ entry.now.extent.size < 2 ^ 32 }
        ensures entries { Maps entry.now.extent (λ page. Some (part_of entry.now page)) self.old self.new }
        ensures pages { pages_in self.new ≡ pages_in self.old }
        ensures cost { steps.new ≤ steps.old + 12 }
    {
        let Extent { size, first } = entry.extent;
        let part = size.smaller();
        let parts = parts_from(&entry.mapping, part.pages());
        self.tree.split(size, first, &parts, steps);
        counts::subtract(&mut self.counts, size, 1);
        counts::add(&mut self.counts, part, 8);
    }

    /// The entry of the extent of a size round a page that its eight parts form, where they do: each is an entry, and they continue each other in
    /// frames of an extent.
    pub fn whole<L: Ledger>(
        &self,
        size: Size,
        page: u32,
        steps: &mut Steps<L>,
    ) -> Option<TableEntry>
        requires { 0 < size }
        ensures whole { MatchOption result
            ((whole : Item) → whole.extent ≡ extent_round size page → AreParts whole self.now → ⊥)
            (λ whole. (whole.extent ≡ extent_round size page) × AreParts whole self.now) }
        ensures cost { steps.new + size ≤ steps.old + 5 }
    {
        let over = self.tree.at(size, page, steps);
        let parts = self.tree.eight(over, steps);
        let mapping = parts::joined(parts, size.smaller().pages())?;
        Some(TableEntry::round(size, page, mapping))
    }

    /// Joins the eight parts of an entry to it.
    pub fn join<L: Ledger>(&mut self, whole: &TableEntry, steps: &mut Steps<L>)
        requires large { 0 < whole.now.extent.size }
        requires extent { IsExtent whole.now.extent.size whole.now.extent.first }
        requires parts { AreParts whole.now self.old }
        ensures entries { Maps whole.now.extent (λ _. Some whole.now) self.old self.new }
        ensures pages { pages_in self.new ≡ pages_in self.old }
        ensures cost { steps.new ≤ steps.old + 12 }
    {
        let Extent { size, first } = whole.extent;
        self.tree.join(size, first, whole.mapping, steps);
        counts::subtract(&mut self.counts, size.smaller(), 8);
        counts::add(&mut self.counts, size, 1);
    }

    /// Whether nothing is mapped.
    fn is_empty(&self) -> bool
        ensures true_where_none { ((page : ℕ) → entry_at self.now page ≡ None) → result ≡ true }
        ensures none_where_true { result ≡ true → (page : ℕ) → entry_at self.now page ≡ None }
    {
        let _ = &self.tree;
        self.counts == [0; 4]
    }

    /// How many entries there are of each size.
    pub fn counts(&self) -> [u32; 4]
        ensures { result ≡ entry_count self.now 0 ∷ entry_count self.now 1 ∷ entry_count self.now 2 ∷ entry_count self.now 3 ∷ [] }
    {
        let _ = &self.tree;
        self.counts
    }
}
