//! Extents as they are placed and looked for, over the tree. Pages are counted over all spaces.

ghost use Rattle.std.specs.Prelude.{◌≡◌, ℕ, ◌+◌, ◌-◌, ◌*◌, ◌/◌, ◌%◌, ◌^◌, ◌<◌, ◌≤◌, ◌↔◌, true, false, MatchOption, Some, None, is_some, All, slice_get, option_map};
ghost use Rattle.std.specs.Bool.{OnTrue, OnFalse};
ghost use Rattle.pager_model.specs.Extents.{IsExtent};
ghost use Rattle.pager_model.specs.OptionalIndices.{no_index};
ghost use Rattle.population_map.specs.Kept.{AreMarks};
ghost use Rattle.population_map.specs.Populations.{id_of, is_placed, is_populated, mark_of, placed_mark, placed_pages, IsInNone, SomePopulated, SameRoom, PlacesOnly, PlacesParts, EmptiesOnly};

use crate::mark::{Mark, has_bit};
use crate::way;
use extent_tree::ExtentTree;
use pager_model::{OptionalIndex, Size, Steps};
use std::sync::ledger::{Blank, Ledger};

/// Places the extent of a size from a page on, none of whose pages is in a placed one.
pub(crate) fn insert<L: Ledger>(
    tree: &mut ExtentTree<Mark>,
    size: Size,
    first: u32,
    id: u32,
    blank: Blank,
)
    requires name { blank.name ≡ L.name }
    requires parts { blank.parts ≡ L.parts }
    requires share { 0 < blank.parts }
    requires marks { AreMarks tree.old }
    requires page { first < 512 * tree.old.roots }
    requires aligned { IsExtent size first }
    requires apart { (page : ℕ) → page / 8 ^ size ≡ first / 8 ^ size → IsInNone tree.old page }
    requires id { id < no_index }
    requires room { 3 * (placed_pages tree.old + 8 ^ size) ≤ tree.old.room }
    ensures marks { AreMarks tree.new }
    ensures room { SameRoom tree.old tree.new }
    ensures placed { PlacesOnly tree.old tree.new size first (Some id) }
    ensures empty { EmptiesOnly tree.old tree.new size first }
    ensures count { placed_pages tree.new ≡ placed_pages tree.old + 8 ^ size }
{
    let (book, share) = blank.open::<L>();
    let mark = Mark {
        id: OptionalIndex::of(id),
        some: 0,
        full: 0,
    };
    tree.put(size, first, mark, &mut Steps::begin(book, share));
}

/// Evicts the pages of a placed extent, and takes it out.
pub(crate) fn remove<L: Ledger>(tree: &mut ExtentTree<Mark>, size: Size, first: u32, blank: Blank)
    requires name { blank.name ≡ L.name }
    requires parts { blank.parts ≡ L.parts }
    requires share { 0 < blank.parts }
    requires marks { AreMarks tree.old }
    requires page { first < 512 * tree.old.roots }
    requires known { tree.old.roots ≤ 2097152 }
    requires aligned { IsExtent size first }
    requires placed { is_some (id_of tree.old size first) ≡ true }
    requires room { 3 * placed_pages tree.old ≤ tree.old.room }
    ensures marks { AreMarks tree.new }
    ensures room { SameRoom tree.old tree.new }
    ensures placed { PlacesOnly tree.old tree.new size first None }
    ensures empty { EmptiesOnly tree.old tree.new size first }
    ensures count { placed_pages tree.new + 8 ^ size ≡ placed_pages tree.old }
{
    let (book, share) = blank.open::<L>();
    let steps = &mut Steps::begin(book, share);
    evict_all(tree, size, first, steps);
    tree.remove(size, first, steps);
}

/// Evicts the pages of a placed extent of more than a page, and places its eight parts with these ids in its stead.
pub(crate) fn split<L: Ledger>(
    tree: &mut ExtentTree<Mark>,
    size: Size,
    first: u32,
    ids: &[u32; 8],
    blank: Blank,
)
    requires name { blank.name ≡ L.name }
    requires parts { blank.parts ≡ L.parts }
    requires share { 0 < blank.parts }
    requires marks { AreMarks tree.old }
    requires size { 0 < size }
    requires page { first < 512 * tree.old.roots }
    requires known { tree.old.roots ≤ 2097152 }
    requires aligned { IsExtent size first }
    requires placed { is_some (id_of tree.old size first) ≡ true }
    requires ids { All (λ id. id < no_index) ids.now }
    requires room { 3 * placed_pages tree.old ≤ tree.old.room }
    ensures marks { AreMarks tree.new }
    ensures room { SameRoom tree.old tree.new }
    ensures placed { PlacesParts tree.old tree.new size first ids.now }
    ensures empty { EmptiesOnly tree.old tree.new size first }
    ensures count { placed_pages tree.new ≡ placed_pages tree.old }
{
    let (book, share) = blank.open::<L>();
    let steps = &mut Steps::begin(book, share);
    evict_all(tree, size, first, steps);
    let marks = marks_from(ids);
    tree.split(size, first, &marks, steps);
}

/// The marks of eight extents that are placed with these ids and have no populated page.
fn marks_from(ids: &[u32; 8]) -> [Mark; 8]
    requires { All (λ id. id < no_index) ids.now }
    ensures { (part : ℕ) → part < 8 → slice_get result part ≡ option_map placed_mark (slice_get ids.now part) }
{
    let mut marks = [Mark::NONE; 8];
    for part in 0..8 {
        marks[part] = Mark {
            id: OptionalIndex::of(ids[part]),
            some: 0,
            full: 0,
        };
    }
    marks
}

/// Evicts the populated pages of a placed extent. Where there is none, its mark says so, and no page is asked. Most often the 512 pages
/// round the extent have none either, and their mark, which is found first, says so of all.
fn evict_all<L: Ledger>(tree: &mut ExtentTree<Mark>, size: Size, first: u32, steps: &mut Steps<L>)
    requires marks { AreMarks tree.old }
    requires page { first < 512 * tree.old.roots }
    requires known { tree.old.roots ≤ 2097152 }
    requires aligned { IsExtent size first }
    requires placed { is_some (id_of tree.old size first) ≡ true }
    requires room { 3 * placed_pages tree.old ≤ tree.old.room }
    ensures marks { AreMarks tree.new }
    ensures room { SameRoom tree.old tree.new }
    ensures ids { (part page : ℕ) → part ≤ 3 → id_of tree.new part page ≡ id_of tree.old part page }
    ensures empty { EmptiesOnly tree.old tree.new size first }
{
    if mark_at(tree, Size::at_level(3), first, steps).some == 0 {
        return;
    }
    if !has_populated(tree, size, first, steps) {
        return;
    }
    for page in first..first + size.pages() {
        if is_populated(tree, page, steps) {
            way::change(tree, page, false, steps);
        }
    }
}

/// Whether an extent round a page has a populated page.
fn has_populated<L: Ledger>(
    tree: &ExtentTree<Mark>,
    size: Size,
    page: u32,
    steps: &mut Steps<L>,
) -> bool
    requires { AreMarks tree.now }
    ensures { (result ≡ true) ↔ SomePopulated tree.now size page }
{
    if size.level() == 0 {
        return is_populated(tree, page, steps);
    }
    mark_at(tree, size, page, steps).some != 0
}

/// Whether a page is populated.
fn is_populated<L: Ledger>(tree: &ExtentTree<Mark>, page: u32, steps: &mut Steps<L>) -> bool
    ensures { result ≡ is_populated tree.now page }
{
    let mark = mark_at(tree, Size::at_level(1), page, steps);
    has_bit(mark.some, page % 8)
}

/// The mark of an extent round a page.
fn mark_at<L: Ledger>(tree: &ExtentTree<Mark>, size: Size, page: u32, steps: &mut Steps<L>) -> Mark
    ensures { result ≡ mark_of tree.now size page }
{
    let spot = tree.at(size, page, steps);
    way::mark_at(&spot)
}

/// The mark of an extent round a page, by uncounted steps.
pub(crate) fn mark_of<L: Ledger>(
    tree: &ExtentTree<Mark>,
    size: Size,
    page: u32,
    blank: Blank,
) -> Mark
    requires name { blank.name ≡ L.name }
    requires parts { blank.parts ≡ L.parts }
    requires share { 0 < blank.parts }
    ensures { result ≡ mark_of tree.now size page }
{
    let (book, share) = blank.open::<L>();
    mark_at(tree, size, page, &mut Steps::begin(book, share))
}

/// The id of the placed extent that has a page.
pub(crate) fn id_over<L: Ledger>(
    tree: &ExtentTree<Mark>,
    page: u32,
    steps: &mut Steps<L>,
) -> Option<u32>
    ensures found { MatchOption result (IsInNone tree.now page)
        (λ id. (size : ℕ) × (size ≤ 3) × (id_of tree.now size page ≡ Some id)) }
    ensures cost { steps.new ≤ steps.old + 4 }
{
    let mut spot = tree.at(Size::at_level(3), page, steps);
    for below in 0..3 {
        let id = way::mark_at(&spot).id.get();
        if id.is_some() {
            return id;
        }
        spot = tree.part(spot, Size::at_level(2 - below), page, steps);
    }
    way::mark_at(&spot).id.get()
}

/// Whether a placed extent has a page of the one of a size round a page.
pub(crate) fn is_met<L: Ledger>(
    tree: &ExtentTree<Mark>,
    size: Size,
    page: u32,
    steps: &mut Steps<L>,
) -> bool
    requires { AreMarks tree.now }
    ensures meets { OnTrue result ((other : ℕ) × (other / 8 ^ size ≡ page / 8 ^ size) × (is_placed tree.now other ≡ true)) }
    ensures apart { OnFalse result ((other : ℕ) → other / 8 ^ size ≡ page / 8 ^ size → IsInNone tree.now other) }
    ensures cost { steps.new ≤ steps.old + 4 }
{
    let mut spot = tree.at(Size::at_level(3), page, steps);
    let above_it = 3 - size.level();
    for above in 0..above_it {
        if way::mark_at(&spot).is_placed() {
            return true;
        }
        spot = tree.part(spot, Size::at_level(2 - above), page, steps);
    }
    if way::mark_at(&spot).is_placed() {
        return true;
    }
    spot.is_split()
}
