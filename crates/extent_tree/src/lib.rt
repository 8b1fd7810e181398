//! A tree of extents of pages: rows, each of an extent and a value. To look at an extent, to put a row in or to take one out are a
//! few looks at nodes, however many rows there are. Each look at a root or a node, and each write of one, counts as a step.
//!
//! Rows may lie in one another. Below each root, an extent of 512 pages, a node has what is at the eight parts of an extent, and the
//! nodes below. An extent has a node exactly where a smaller one in it has a row. Pages are counted from 0 over all roots.
#![tactic(auto)]

ghost use Rattle.std.specs.Prelude.{suc, slice_index_or, ◌/◌, ◌%◌, ◌≡◌, [], length, ℕ, ◌+◌, ◌-◌, ◌*◌, ◌<◌, ◌≤◌, ◌^◌, true, Some, None, IfNone, IfOk, IfSome, MatchOption, is_some};
ghost use Rattle.extent_tree.specs.Counts.{splits_with};
ghost use Rattle.extent_tree.specs.Rows.{ChangesEight, ChangesOnly, HasNoRow, IsNextRow, IsRowRound, NoRows, NoSplitRoots, SplitsAreRowsBelow, blank, is_split, row, spot_of};

mod spot;
mod store;
mod walk;

use pager_model::{NoMemory, Size, Steps};
pub use spot::{Row, Spot};
use std::alloc::Global;
use std::marker::Model;
use std::sync::ledger::Ledger;
use store::Store;

/// Rows, each of an extent and a value, by their extents.
///
/// Contracts see the row of each extent (`row`), and which extents have smaller ones with rows in them (`is_split`).
#[derive(Drop)]
pub struct ExtentTree<V> {
    store: Store<V>,
}

impl<V> Model for ExtentTree<V> {
    ghost use Rattle.extent_tree.specs.Kept.{IsTree};
    ghost use Rattle.extent_tree.specs.Rows.{Arena};

    ghost Value = { Arena V };

    ghost view = { λ t. t.store };

    ghost invariant = { λ t. IsTree t.store };
}

/// How far the extents of a size are below the roots.
fn height_of(size: Size) -> u32
    ensures height { result ≡ 3 - size }
    ensures small { size + result ≡ 3 }
{
    3 - u32::from(size.level())
}

impl<V: Copy> ExtentTree<V> {
    /// A tree over this many roots, with no row, and with room for this many nodes.
    pub fn create(alloc: Global, roots: u32, room: u32) -> Result<ExtentTree<V>, NoMemory>
        requires { roots + 8 * room < 2 ^ 32 }
        ensures roots { IfOk result (λ tree. tree.roots ≡ roots) }
        ensures room { IfOk result (λ tree. tree.room ≡ room) }
        ensures empty { IfOk result (λ tree. (size page : ℕ) → row tree size page ≡ None) }
        ensures splits { IfOk result (λ tree. SplitsAreRowsBelow tree) }
    {
        let store = Store::create(alloc, roots, room)?;
        Ok(ExtentTree { store })
    }

    /// What is at the extent of a size round a page.
    pub fn at<L: Ledger>(&self, size: Size, page: u32, steps: &mut Steps<L>) -> Spot<V>
        ensures spot { result ≡ spot_of self.now (3 - size) page }
        ensures value { result.value ≡ row self.now size page }
        ensures split { is_some result.node ≡ is_split self.now size page }
        ensures cost { steps.new + size ≤ steps.old + 4 }
    {
        match walk::find(&self.store, height_of(size), page, steps) {
            Some(place) => self.store.spot(place, steps),
            None => Spot::blank(),
        }
    }

    /// The largest row round a page.
    pub fn row_round<L: Ledger>(&self, page: u32, steps: &mut Steps<L>) -> Option<Row<V>>
        ensures some { IfSome result (IsRowRound self.now page) }
        ensures none { IfNone result (HasNoRow self.now page) }
        ensures cost { steps.new ≤ steps.old + 4 }
    {
        walk::row_round(&self.store, page, steps)
    }

    /// What is at the extent of a size round a page, from what is at the one of the next larger size.
    pub fn part<L: Ledger>(
        &self,
        over: Spot<V>,
        size: Size,
        page: u32,
        steps: &mut Steps<L>,
    ) -> Spot<V>
        requires size { size < 3 }
        requires over { over ≡ spot_of self.now (2 - size) page }
        ensures spot { result ≡ spot_of self.now (3 - size) page }
        ensures value { result.value ≡ row self.now size page }
        ensures split { is_some result.node ≡ is_split self.now size page }
        ensures cost { steps.new ≤ steps.old + 1 }
    {
        let Some(node) = over.node() else {
            return Spot::blank();
        };
        let place = self.store.place(node, walk::part_at(height_of(size), page));
        self.store.spot(place, steps)
    }

    /// What is at the eight parts of an extent, in order, from what is at the extent. Nothing is there where the list ends.
    pub fn eight<L: Ledger>(&self, over: Spot<V>, steps: &mut Steps<L>) -> &[Spot<V>]
        requires over { (height page : ℕ) × (height < 3) × (over ≡ spot_of self.now height page) }
        ensures few { length result.now ≤ 8 }
        ensures spots { (size page other : ℕ) → size ≤ 2 → over ≡ spot_of self.now (2 - size) page → other / 8 ^ suc size ≡ page / 8 ^ suc size
            → slice_index_or result.now (other / 8 ^ size % 8) blank ≡ spot_of self.now (3 - size) other }
        ensures values { (size page other : ℕ) → size ≤ 2 → over ≡ spot_of self.now (2 - size) page → other / 8 ^ suc size ≡ page / 8 ^ suc size
            → (slice_index_or result.now (other / 8 ^ size % 8) blank).value ≡ row self.now size other }
        ensures cost { steps.new ≤ steps.old + 1 }
    {
        match over.node() {
            Some(node) => self.store.eight(node, steps),
            None => &[],
        }
    }

    /// The largest row round the lowest page from `from` on and before `end` that has one round it.
    ///
    /// An extent that has a row is looked at once, and so is one that isn't split, which is passed over whole. That makes at most four looks for
    /// each page up to the one that is found or the end, and one for each root where none is split.
    pub fn next<L: Ledger>(&self, from: u32, end: u32, steps: &mut Steps<L>) -> Option<Row<V>>
        requires { end ≤ 512 * self.now.roots }
        ensures some { IfSome result (IsNextRow self.now 3 from end) }
        ensures none { IfNone result (NoRows self.now 3 from end) }
        ensures cost { MatchOption result (steps.new ≤ steps.old + 4 * (end - from)) (λ found. steps.new ≤ steps.old + 4 * (found.page + 1 - from)) }
        ensures roots { from ≤ end → NoSplitRoots self.now from end → steps.new + from / 512 ≤ steps.old + (end + 511) / 512 }
    {
        walk::next(&self.store, from, end, steps)
    }

    /// The first root from one on and before an end that something is at, or the end.
    ///
    /// A root is an extent of 512 pages. Each up to the one that is found or the end is looked at once.
    pub fn used_root<L: Ledger>(&self, from: u32, end: u32, steps: &mut Steps<L>) -> u32
        requires range { from ≤ end }
        requires end { end ≤ self.now.roots }
        ensures from_on { from ≤ result }
        ensures within { result ≤ end }
        ensures bare { NoRows self.now 3 (512 * from) (512 * result) }
        ensures used { result < end → (size page : ℕ) × (size ≤ 3) × (page / 512 ≡ result) × (is_some (row self.now size page) ≡ true) }
        ensures cost_used { result < end → steps.new + from ≤ steps.old + suc result }
        ensures cost_none { result ≡ end → steps.new + from ≤ steps.old + end }
    {
        self.store.next_root(from, end, steps).0
    }

    /// Gives the extent of a size round a page this value, whether it has a row or not.
    pub fn put<L: Ledger>(&mut self, size: Size, page: u32, value: V, steps: &mut Steps<L>)
        requires page { page < 512 * self.old.roots }
        requires room { splits_with self.old size page ≤ self.old.room }
        ensures row { ChangesOnly self.old self.new size page (Some value) }
        ensures splits { SplitsAreRowsBelow self.new }
        ensures cost { steps.new + 3 * size ≤ steps.old + 10 }
    {
        let place = walk::reach(&mut self.store, height_of(size), page, steps);
        self.store.set_value(place, Some(value), steps);
    }

    /// Takes out the row of the extent of a size round a page.
    pub fn remove<L: Ledger>(&mut self, size: Size, page: u32, steps: &mut Steps<L>)
        requires { is_some (row self.old size page) ≡ true }
        ensures row { ChangesOnly self.old self.new size page None }
        ensures splits { SplitsAreRowsBelow self.new }
        ensures cost { steps.new + 3 * size ≤ steps.old + 10 }
    {
        let height = height_of(size);
        let Some(place) = walk::find(&self.store, height, page, steps) else {
            return;
        };
        self.store.set_value(place, None, steps);
        walk::trim(&mut self.store, height, place, steps);
    }

    /// Gives the eight parts of the extent of a size round a page these values, whether they have rows or not, and takes out the row of
    /// the extent.
    pub fn split<L: Ledger>(&mut self, size: Size, page: u32, parts: &[V], steps: &mut Steps<L>)
        requires size { 0 < size }
        requires page { page < 512 * self.old.roots }
        requires parts { length parts.now ≡ 8 }
        requires room { splits_with self.old (size - 1) page ≤ self.old.room }
        ensures rows { ChangesEight self.old self.new size page None parts.now }
        ensures splits { SplitsAreRowsBelow self.new }
        ensures cost { steps.new + 3 * size ≤ steps.old + 15 }
    {
        let place = walk::reach(&mut self.store, height_of(size) + 1, page, steps);
        walk::write_eight(&mut self.store, place, None, parts, steps);
    }

    /// Takes out the rows of the eight parts of the extent of a size round a page, and gives the extent this value, whether it has a row or
    /// not.
    pub fn join<L: Ledger>(&mut self, size: Size, page: u32, value: V, steps: &mut Steps<L>)
        requires size { 0 < size }
        requires parts { is_some (row self.old (size - 1) page) ≡ true }
        ensures rows { ChangesEight self.old self.new size page (Some value) [] }
        ensures splits { SplitsAreRowsBelow self.new }
        ensures cost { steps.new + 3 * size ≤ steps.old + 15 }
    {
        let height = height_of(size) + 1;
        let Some(place) = walk::find(&self.store, height, page, steps) else {
            return;
        };
        walk::write_eight(&mut self.store, place, Some(value), &[], steps);
        walk::trim(&mut self.store, height, place, steps);
    }
}
