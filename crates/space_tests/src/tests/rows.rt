//! A tree of extents, in worked rows.
ghost use Rattle.std.specs.Prelude.{◌≡◌, ◌*◌, ◌<◌, ◌≤◌};

use super::{NO_MEMORY, count, number, size, words};
use extent_tree::ExtentTree;
use pager_model::{Size, Steps};
use std::alloc::Global;
use std::marker::Brand;
use std::process::Abort;
use std::sync::ledger::{Blank, Ledger};

const ROOTS: u32 = 3;

const PAGES: u32 = 512 * ROOTS;

// The calls on a tree in turn, each on the extent of a level round a page:
//
//     put LEVEL PAGE VALUE, remove LEVEL PAGE
//     split LEVEL PAGE VALUE             its eight parts have this value and the next ones
//     join LEVEL PAGE VALUE              it has this value in place of its parts
//     at LEVEL PAGE VALUE SPLIT          it has this value or none, and smaller ones in it have some or not
//     next FROM END PAGE LEVEL VALUE     the next row from a page on and before another one, or none
const ROWS: &str = "\
next 0 1536 -
at 3 5 - 0
put 0 77 1
at 0 77 1 0
at 0 76 - 0
at 1 72 - 1
at 2 64 - 1
at 3 0 - 1
at 1 64 - 0
next 0 1536 77 0 1
next 77 78 77 0 1
next 78 1536 -
put 2 100 2 a row round the other
at 2 64 2 1
at 0 77 1 0
next 0 1536 64 2 2
next 100 1536 100 2 2
put 0 77 3 another value
at 0 77 3 0
remove 2 127
at 2 64 - 1
remove 0 77
at 1 72 - 0
at 3 0 - 0
next 0 1536 -
put 3 600 10 of the second root
split 3 512 20
at 3 512 - 1
at 2 512 20 0
at 2 1023 27 0
split 2 576 30 the second part's parts
at 2 576 - 1
at 1 583 30 0
at 1 639 37 0
at 2 512 20 0
next 0 1536 512 2 20
next 576 1536 576 1 30
next 640 1536 640 2 22
join 2 600 40
at 2 576 40 0
at 1 583 - 0
join 3 1023 50
at 3 512 50 0
at 2 576 - 0
next 0 512 -
next 1024 1536 -
next 1023 1536 1023 3 50
put 1 1535 60 of the last one
next 1024 1536 1528 1 60
next 1024 1528 -
";

/// A tree with room for every node over its roots.
#[derive(Drop)]
struct Tree {
    tree: ExtentTree<u32>,
    ghost roots: { tree.roots ≡ 3 },
    ghost room: { 73 * 3 ≤ tree.room },
}

impl Tree {
    fn create(rt: &impl Abort, alloc: Global) -> Tree {
        let tree = ExtentTree::create(alloc, ROOTS, 73 * ROOTS).expect(rt, NO_MEMORY);
        Tree { tree }
    }

    /// Puts a row in, where there is such a page, and says whether there is.
    fn put<L: Ledger>(&mut self, size: Size, page: u32, value: u32, steps: &mut Steps<L>) -> bool {
        if page >= PAGES {
            return false;
        }
        self.tree.put(size, page, value, steps);
        true
    }

    /// Takes a row out, where it is there, and says whether it was.
    fn remove<L: Ledger>(&mut self, size: Size, page: u32, steps: &mut Steps<L>) -> bool {
        if self.tree.at(size, page, steps).value().is_none() {
            return false;
        }
        self.tree.remove(size, page, steps);
        true
    }

    /// Gives the parts of an extent of more than a page values in place of its own, and says whether it is one.
    fn split<L: Ledger>(
        &mut self,
        size: Size,
        page: u32,
        first: u32,
        steps: &mut Steps<L>,
    ) -> bool {
        if size.level() == 0 || page >= PAGES {
            return false;
        }
        let mut values = [first; 8];
        for part in 1..8 {
            values[part] = values[part - 1].wrapping_add(1);
        }
        self.tree.split(size, page, &values, steps);
        true
    }

    /// Gives an extent of more than a page a value in place of its parts', where the first has one, and says whether it has.
    fn join<L: Ledger>(&mut self, size: Size, page: u32, value: u32, steps: &mut Steps<L>) -> bool {
        if size.level() == 0 || self.tree.at(size.smaller(), page, steps).value().is_none() {
            return false;
        }
        self.tree.join(size, page, value, steps);
        true
    }

    /// The page, the level and the value of the next row, where the range is one of the tree's pages.
    fn next<L: Ledger>(
        &self,
        from: u32,
        end: u32,
        steps: &mut Steps<L>,
    ) -> Option<(u32, u32, u32)> {
        if end > PAGES {
            return None;
        }
        let row = self.tree.next(from, end, steps)?;
        Some((row.page, u32::from(row.size.level()), row.value))
    }

    /// Whether this stands at the extent of a size round a page.
    fn has<L: Ledger>(
        &self,
        size: Size,
        page: u32,
        value: Option<u32>,
        is_split: bool,
        steps: &mut Steps<L>,
    ) -> bool {
        let spot = self.tree.at(size, page, steps);
        spot.value() == value && spot.is_split() == is_split
    }

    /// Makes the change that a word names, where it can be made, and says whether it can.
    fn change<L: Ledger>(
        &mut self,
        call: &str,
        size: Size,
        page: u32,
        value: u32,
        steps: &mut Steps<L>,
    ) -> bool {
        match call {
            "put" => self.put(size, page, value, steps),
            "split" => self.split(size, page, value, steps),
            "join" => self.join(size, page, value, steps),
            _ => self.remove(size, page, steps),
        }
    }

    /// Makes the call of a row. Whether it goes as the row says.
    fn goes<L: Ledger>(&mut self, row: &str, steps: &mut Steps<L>) -> bool {
        let [call, one, two, three, four, five, ..] = words(row);
        let (first, second, fourth) = (count(one), count(two), count(four));
        match call {
            "at" => self.has(size(first), second, number(three), fourth == 1, steps),
            "next" => self.next(first, second, steps) == row_of(three, fourth, count(five)),
            _ => self.change(call, size(first), second, count(three), steps),
        }
    }
}

/// The row that these are of, and none for a dash.
fn row_of(page: &str, level: u32, value: u32) -> Option<(u32, u32, u32)> {
    Some((number(page)?, level, value))
}

/// Asserts that all rows go as they say, one after another.
fn go_all<L: Ledger>(rt: &impl Abort, tree: &mut Tree, steps: &mut Steps<L>) {
    for row in ROWS.lines() {
        assert!(rt; tree.goes(row, steps), "{row}");
    }
}

/// Asserts so with a counter of steps that begins at 0.
fn goes_through<L: Ledger>(rt: &impl Abort, tree: &mut Tree, blank: Blank)
    requires name { blank.name ≡ L.name }
    requires parts { blank.parts ≡ L.parts }
    requires share { 0 < blank.parts }
{
    let (book, share) = blank.open::<L>();
    go_all(rt, tree, &mut Steps::begin(book, share));
}

#[test]
fn rows_lie_in_one_another(rt: HostRuntime) {
    let mut tree = Tree::create(&rt, rt.alloc());
    goes_through::<Brand>(&rt, &mut tree, Blank::new(1));
}
