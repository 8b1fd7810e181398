//! Which extents of pages are placed with which id, and which pages of them are populated, over all spaces. To find the extent that has
//! a page, to populate a page or to evict it are a few looks at nodes of a tree, however many extents are placed.
//!
//! Pages are counted over all spaces (`page_at`). What is kept of an extent is its id, and which of its eight parts have populated pages
//! and are full of them, as a row of the tree. Each look at a root or a node of it, and each write of one, counts as a step.
//!
//! The pool calls `insert`, `remove`, `split`, `find` and `meets`. `populate`, `evict`, `some` and `full` are for policies that look at which
//! pages are populated. The pool calls none of them, since it counts by frame which are.
#![tactic(auto)]

ghost use Rattle.std.specs.Prelude.{◌≡◌, ℕ, ◌+◌, ◌-◌, ◌*◌, ◌/◌, ◌%◌, ◌^◌, ◌<◌, ◌≤◌, ◌↔◌, true, false, IfOk, MatchOption, Some, None, is_some, All};
ghost use Rattle.std.specs.Bool.{OnTrue, OnFalse};
ghost use Rattle.std.specs.Int.{bit_at};
ghost use Rattle.pager_model.specs.Extents.{IsExtent};
ghost use Rattle.population_map.specs.Populations.{page_at, id_of, is_placed, is_populated, placed_pages, space_count, frame_count, IsInNone, SomePopulated, AllPopulated, SameRoom, PlacesOnly, PlacesParts, EmptiesOnly, PopulatesOnly};
ghost use Rattle.pager_model.specs.Bounds.{space_pages};

mod mark;
mod placing;
mod way;

use extent_tree::ExtentTree;
use mark::Mark;
use pager_model::{Extent, NoMemory, PAGES, Steps};
use std::alloc::Global;
use std::marker::{Brand, Model};
use std::sync::ledger::{Blank, Ledger};

/// The extents of 512 pages of a space.
const ROOTS: u32 = 2048;

/// Which extents of pages are placed with which id, and which pages of them are populated.
///
/// Contracts see the id of each extent (`id_of`), whether each page is populated (`is_populated`), and how many pages are in placed
/// extents (`placed_pages`). There is room for three nodes of the tree for each page that may be placed, since each node is of an extent
/// with such a page. `create` takes it, and nodes are written as they are first used.
#[derive(Drop)]
pub struct PopulationMap {
    spaces: u32,
    tree: ExtentTree<Mark>,
}

impl Model for PopulationMap {
    ghost use Rattle.extent_tree.specs.Rows.{Arena};
    ghost use Rattle.population_map.specs.declared.mark.Mark.{Mark};
    ghost use Rattle.population_map.specs.Kept.{IsPopulation};

    ghost Value = { Arena Mark };

    ghost view = { λ m. m.tree };

    ghost invariant = { λ m. IsPopulation m.spaces m.tree };
}

/// The number of a page of a space over all spaces.
fn page_at(space: u32, page: u32) -> u32
    requires space { space < 1024 }
    requires page { page < space_pages }
    ensures { result ≡ page_at space page }
{
    PAGES * space + page
}

impl PopulationMap {
    /// A map over this many spaces, at most 1,024, in which no extent is placed, with room to place extents of this many pages
    /// together.
    pub fn create(alloc: Global, spaces: u32, frames: u32) -> Result<PopulationMap, NoMemory>
        requires spaces { spaces ≤ 1024 }
        requires frames { frames ≤ 16777216 }
        ensures spaces { IfOk result (λ map. space_count map ≡ spaces) }
        ensures frames { IfOk result (λ map. frame_count map ≡ frames) }
        ensures no_extent { IfOk result (λ map. (size page : ℕ) → id_of map size page ≡ None) }
        ensures no_page { IfOk result (λ map. (page : ℕ) → is_populated map page ≡ false) }
        ensures count { IfOk result (λ map. placed_pages map ≡ 0) }
    {
        let tree = ExtentTree::create(alloc, ROOTS * spaces, 3 * frames)?;
        Ok(PopulationMap { spaces, tree })
    }

    /// How many spaces there are.
    pub fn spaces(&self) -> u32
        ensures { result ≡ space_count self.now }
    {
        self.spaces
    }

    /// Places an extent of which no page is in a placed one. Ids are below the number of pages that there is room for, as frames are: so
    /// an id or none fits in four bytes.
    pub fn insert(&mut self, space: u32, extent: Extent, id: u32)
        requires space { space < space_count self.old }
        requires aligned { IsExtent extent.size extent.first }
        requires within { extent.first < space_pages }
        requires apart { (page : ℕ) → page / 8 ^ extent.size ≡ page_at space extent.first / 8 ^ extent.size
            → IsInNone self.old page }
        requires id { id < frame_count self.old }
        requires room { placed_pages self.old + 8 ^ extent.size ≤ frame_count self.old }
        ensures room { SameRoom self.old self.new }
        ensures placed { PlacesOnly self.old self.new extent.size (page_at space extent.first) (Some id) }
        ensures empty { EmptiesOnly self.old self.new extent.size (page_at space extent.first) }
        ensures count { placed_pages self.new ≡ placed_pages self.old + 8 ^ extent.size }
    {
        placing::insert::<Brand>(
            &mut self.tree,
            extent.size,
            page_at(space, extent.first),
            id,
            Blank::new(1),
        );
    }

    /// Takes a placed extent out, and evicts its pages. Where none of the 512 pages round it is populated, one look says so; where
    /// others of these are, at most three more say that none of its own is.
    pub fn remove(&mut self, space: u32, extent: Extent)
        requires space { space < space_count self.old }
        requires aligned { IsExtent extent.size extent.first }
        requires within { extent.first < space_pages }
        requires placed { is_some (id_of self.old extent.size (page_at space extent.first)) ≡ true }
        ensures room { SameRoom self.old self.new }
        ensures placed { PlacesOnly self.old self.new extent.size (page_at space extent.first) None }
        ensures empty { EmptiesOnly self.old self.new extent.size (page_at space extent.first) }
        ensures count { placed_pages self.new + 8 ^ extent.size ≡ placed_pages self.old }
    {
        placing::remove::<Brand>(
            &mut self.tree,
            extent.size,
            page_at(space, extent.first),
            Blank::new(1),
        );
    }

    /// Takes a placed extent of more than a page out, evicts its pages, and places its eight parts with these ids in its stead, in order.
    /// That writes eight places of one node at once, where a removal and eight placings would walk to each.
    pub fn split(&mut self, space: u32, extent: Extent, ids: &[u32; 8])
        requires space { space < space_count self.old }
        requires size { 0 < extent.size }
        requires aligned { IsExtent extent.size extent.first }
        requires within { extent.first < space_pages }
        requires placed { is_some (id_of self.old extent.size (page_at space extent.first)) ≡ true }
        requires ids { All (λ id. id < frame_count self.old) ids.now }
        ensures room { SameRoom self.old self.new }
        ensures placed { PlacesParts self.old self.new extent.size (page_at space extent.first) ids.now }
        ensures empty { EmptiesOnly self.old self.new extent.size (page_at space extent.first) }
        ensures count { placed_pages self.new ≡ placed_pages self.old }
    {
        placing::split::<Brand>(
            &mut self.tree,
            extent.size,
            page_at(space, extent.first),
            ids,
            Blank::new(1),
        );
    }

    /// Populates a page of a placed extent.
    pub fn populate<L: Ledger>(&mut self, space: u32, page: u32, steps: &mut Steps<L>)
        requires space { space < space_count self.old }
        requires page { page < space_pages }
        requires placed { is_placed self.old (page_at space page) ≡ true }
        requires empty { is_populated self.old (page_at space page) ≡ false }
        ensures room { SameRoom self.old self.new }
        ensures populated { PopulatesOnly self.old self.new (page_at space page) true }
        ensures count { placed_pages self.new ≡ placed_pages self.old }
        ensures cost { steps.new ≤ steps.old + 16 }
    {
        way::change(&mut self.tree, page_at(space, page), true, steps);
    }

    /// Evicts a populated page.
    pub fn evict<L: Ledger>(&mut self, space: u32, page: u32, steps: &mut Steps<L>)
        requires space { space < space_count self.old }
        requires page { page < space_pages }
        requires populated { is_populated self.old (page_at space page) ≡ true }
        ensures room { SameRoom self.old self.new }
        ensures evicted { PopulatesOnly self.old self.new (page_at space page) false }
        ensures count { placed_pages self.new ≡ placed_pages self.old }
        ensures cost { steps.new ≤ steps.old + 16 }
    {
        way::change(&mut self.tree, page_at(space, page), false, steps);
    }

    /// The id of the placed extent that has a page, if one has it.
    pub fn find<L: Ledger>(&self, space: u32, page: u32, steps: &mut Steps<L>) -> Option<u32>
        requires space { space < space_count self.now }
        requires page { page < space_pages }
        ensures found { MatchOption result (IsInNone self.now (page_at space page))
            (λ id. (size : ℕ) × (size ≤ 3) × (id_of self.now size (page_at space page) ≡ Some id)) }
        ensures cost { steps.new ≤ steps.old + 4 }
    {
        placing::id_over(&self.tree, page_at(space, page), steps)
    }

    /// Whether a placed extent has a page of this one.
    pub fn meets<L: Ledger>(&self, space: u32, extent: Extent, steps: &mut Steps<L>) -> bool
        requires space { space < space_count self.now }
        requires aligned { IsExtent extent.size extent.first }
        requires within { extent.first < space_pages }
        ensures meets { OnTrue result ((page : ℕ) × (page / 8 ^ extent.size ≡ page_at space extent.first / 8 ^ extent.size)
            × (is_placed self.now page ≡ true)) }
        ensures apart { OnFalse result ((page : ℕ) → page / 8 ^ extent.size ≡ page_at space extent.first / 8 ^ extent.size
            → IsInNone self.now page) }
        ensures cost { steps.new ≤ steps.old + 4 }
    {
        placing::is_met(&self.tree, extent.size, page_at(space, extent.first), steps)
    }

    /// Which of the eight parts of an extent of more than a page have a populated page, a bit for each.
    pub fn some(&self, space: u32, extent: Extent) -> u8
        requires space { space < space_count self.now }
        requires size { 0 < extent.size }
        requires aligned { IsExtent extent.size extent.first }
        requires within { extent.first < space_pages }
        ensures { (page : ℕ) → page / 8 ^ extent.size ≡ page_at space extent.first / 8 ^ extent.size
            → (bit_at result (page / 8 ^ (extent.size - 1) % 8) ≡ 1) ↔ SomePopulated self.now (extent.size - 1) page }
    {
        placing::mark_of::<Brand>(
            &self.tree,
            extent.size,
            page_at(space, extent.first),
            Blank::new(1),
        )
        .some
    }

    /// Which of the eight parts of an extent of more than a page have all their pages populated, a bit for each.
    pub fn full(&self, space: u32, extent: Extent) -> u8
        requires space { space < space_count self.now }
        requires size { 0 < extent.size }
        requires aligned { IsExtent extent.size extent.first }
        requires within { extent.first < space_pages }
        ensures { (page : ℕ) → page / 8 ^ extent.size ≡ page_at space extent.first / 8 ^ extent.size
            → (bit_at result (page / 8 ^ (extent.size - 1) % 8) ≡ 1) ↔ AllPopulated self.now (extent.size - 1) page }
    {
        placing::mark_of::<Brand>(
            &self.tree,
            extent.size,
            page_at(space, extent.first),
            Blank::new(1),
        )
        .full
    }
}
