//! The marks over a page.

ghost use Rattle.std.specs.Prelude.{◌≡◌, ◌+◌, ◌*◌, ◌/◌, ◌<◌, ◌≤◌, true, None, not, is_some, unwrap_or};
ghost use Rattle.extent_tree.specs.Counts.{splits_with};
ghost use Rattle.extent_tree.specs.Rows.{ChangesOnly, SplitsAreRowsBelow, row};
ghost use Rattle.population_map.specs.Kept.{AreMarks, kept};
ghost use Rattle.population_map.specs.Populations.{PopulatesOnly, SameRoom, is_placed, is_populated, mark_of, placed_pages, unmarked};

use crate::mark::Mark;
use extent_tree::{ExtentTree, Spot};
use pager_model::{Size, Steps};
use std::sync::ledger::Ledger;

/// The marks of the extents of 8, of 64 and of 512 pages over a page.
#[derive(Clone, Copy)]
pub(crate) struct Way {
    pub(crate) small: Mark,
    pub(crate) middle: Mark,
    pub(crate) large: Mark,
}

/// The mark that was found at an extent.
pub(crate) fn mark_at(spot: &Spot<Mark>) -> Mark
    ensures { result ≡ unwrap_or spot.now.value unmarked }
{
    spot.value().unwrap_or(Mark::NONE)
}

/// Reads the marks over a page.
pub(crate) fn read<L: Ledger>(tree: &ExtentTree<Mark>, page: u32, steps: &mut Steps<L>) -> Way
    ensures small { result.small ≡ mark_of tree.now 1 page }
    ensures middle { result.middle ≡ mark_of tree.now 2 page }
    ensures large { result.large ≡ mark_of tree.now 3 page }
    ensures cost { steps.new ≤ steps.old + 3 }
{
    let large = tree.at(Size::at_level(3), page, steps);
    let middle = tree.part(large, Size::at_level(2), page, steps);
    let small = tree.part(middle, Size::at_level(1), page, steps);
    Way {
        small: mark_at(&small),
        middle: mark_at(&middle),
        large: mark_at(&large),
    }
}

/// Writes the mark of an extent, or takes its row out where the mark is none.
fn write<L: Ledger>(
    tree: &mut ExtentTree<Mark>,
    size: Size,
    page: u32,
    mark: &Mark,
    steps: &mut Steps<L>,
)
    requires page { page < 512 * tree.old.roots }
    requires room { splits_with tree.old size page ≤ tree.old.room }
    requires row { kept mark.now ≡ None → is_some (row tree.old size page) ≡ true }
    ensures row { ChangesOnly tree.old tree.new size page (kept mark.now) }
    ensures splits { SplitsAreRowsBelow tree.new }
    ensures cost { steps.new + 3 * size ≤ steps.old + 10 }
{
    if mark.is_none() {
        tree.remove(size, page, steps);
    } else {
        tree.put(size, page, *mark, steps);
    }
}

/// Populates a page of a placed extent, or evicts it.
pub(crate) fn change<L: Ledger>(
    tree: &mut ExtentTree<Mark>,
    page: u32,
    is_in: bool,
    steps: &mut Steps<L>,
)
    requires marks { AreMarks tree.old }
    requires page { page < 512 * tree.old.roots }
    requires placed { is_placed tree.old page ≡ true }
    requires before { is_populated tree.old page ≡ not is_in }
    requires room { 3 * placed_pages tree.old ≤ tree.old.room }
    ensures marks { AreMarks tree.new }
    ensures room { SameRoom tree.old tree.new }
    ensures populated { PopulatesOnly tree.old tree.new page is_in }
    ensures cost { steps.new ≤ steps.old + 16 }
{
    let way = read(tree, page, steps);
    let small = way.small.with_page(page % 8, is_in);
    let middle = way.middle.with_part(page / 8 % 8, small);
    let large = way.large.with_part(page / 64 % 8, middle);
    write(tree, Size::at_level(1), page, &small, steps);
    write(tree, Size::at_level(2), page, &middle, steps);
    write(tree, Size::at_level(3), page, &large, steps);
}
