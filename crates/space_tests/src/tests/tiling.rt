//! The tiles of a space's pages, in worked rows.
ghost use Rattle.std.specs.Prelude.{◌≡◌, ◌≢◌, ◌<◌, ◌≤◌, ℕ, true, None, Some};
ghost use Rattle.tiles.specs.Resident.{mapping_at, frames_in, frame_of_page};

use super::{NO_MEMORY, count, number, rights_of, words};
use pager_model::{Mapping, PageRange, Rights, Sizes};
use std::alloc::Global;
use std::marker::Brand;
use std::process::Abort;
use std::sync::ledger::Blank;
use tiles::counted::{after_dirty, after_fill, after_remove, after_rights};
use tiles::{Base, Changes, Moves};

/// The pages that the tests use, and the frames.
const PAGES: u32 = 1024;

const FRAMES: u32 = 1536;

// In each table no page is resident at first. Its rows, of which `FIRST LENGTH` is a range:
//
//     fill PAGE END KIND MOVES          each page before the end gets a frame
//     put PAGE MOVES TOUCHED TILES      the page gets its frame; so `remove`, `dirty` and `clean`
//     read FIRST LENGTH MOVES TOUCHED   the pages may only be read; so `write`
//     counts OF0 OF1 OF2 OF3            how many tiles there are of each size
//     meet FIRST LENGTH COUNT           how many larger than a page have one of these pages
//     tile PAGE LEVEL FIRST FRAME       the page's tile, if it has one
//
// MOVES are two numbers, how many promotions and how many demotions. TOUCHED is a range outside of which each tile is one still. TILES are two
// numbers, how many tiles of all four sizes went and how many came. KIND says how the pages are mapped: neighbours of kind 0 can be of one tile,
// and each other kind differs from it in one thing. Words behind the last place say what a row shows.
//
// So `dirty 100 0 1 0 512 1 22` is read: page 100 becomes dirty, with no promotion and one demotion; outside of the 512 pages from page 0 on each
// tile is one still; one tile went, and 22 came.

/// By all four sizes.
const BY_ALL: &str = "\
fill 0 512 0 64 0
counts 0 0 0 1
tile 511 3 0 1024
meet 0 512 1
put 600 0 0 0 0 0 1 it joins no other
remove 600 0 0 600 1 1 0
dirty 100 0 1 0 512 1 22
counts 8 7 7 0
meet 0 512 14
meet 60 8 2
meet 300 1 1
meet 300 0 0
tile 99 0 99 1123
tile 104 1 104 1128
tile 128 2 128 1152
dirty 100 0 0 0 0 0 0 it is so already
dirty 101 0 0 101 1 1 1
remove 70 0 1 64 8 1 7
counts 15 6 7 0
put 70 1 0 64 8 7 1
clean 101 0 0 101 1 1 1
clean 100 1 0 0 512 22 1
counts 0 0 0 1
remove 100 0 1 0 512 1 21
tile 100 -
put 100 1 0 0 512 21 1
read 8 0 0 0 0 0 no page
write 8 8 0 0 0 0 they may be written
read 8 8 0 1 0 512
counts 0 8 7 0
write 0 16 1 0 0 512
read 64 192 0 1 0 512
counts 0 0 8 0
read 0 512 1 0 0 512
counts 0 0 0 1
fill 512 519 0 0 0
fill 519 520 1 0 0 a frame elsewhere
counts 8 0 0 1
remove 519 0 0 519 1 1 0
fill 519 520 3 0 0 another region
remove 519 0 0 519 1 1 0
fill 519 520 4 0 0 other rights
remove 519 0 0 519 1 1 0
fill 519 520 5 0 0 another flag
remove 519 0 0 519 1 1 0
fill 519 520 0 1 0
fill 528 536 2 0 0 frames that are no extent
counts 8 1 0 1
tile 519 1 512 0
tile 535 0 535 24
fill 896 904 0 0 0 over the end of a region
tile 896 0 896 384
";

/// By base pages and those of 512.
const BY_FIRST_AND_LAST: &str = "\
fill 0 512 0 1 0
counts 0 0 0 1
tile 77 3 0 1024
meet 0 512 1
dirty 100 0 1 0 512 1 22
counts 512 0 0 0
meet 0 512 0
tile 7 0 7 1031
clean 100 1 0 0 512 22 1
read 0 8 0 1 0 512
counts 512 0 0 0
read 8 504 1 0 0 512
counts 0 0 0 1
remove 511 0 1 0 512 1 21
";

/// By base pages and those of 64.
const BY_MIDDLE: &str = "\
fill 0 512 0 8 0
counts 0 0 8 0
tile 77 2 64 1088
meet 0 512 8
dirty 100 0 1 64 64 1 22
counts 64 0 7 0
meet 0 512 7
tile 7 2 0 1024
clean 100 1 0 64 64 22 1
read 0 8 0 1 0 512
counts 64 0 7 0
read 8 504 1 0 0 512
counts 0 0 8 0
remove 511 0 1 448 64 1 21
";

/// By base pages and those of 8 and 512.
const WITHOUT_MIDDLE: &str = "\
fill 0 512 0 64 0
counts 0 0 0 1
tile 77 3 0 1024
meet 0 512 1
dirty 100 0 1 0 512 1 22
counts 8 63 0 0
meet 0 512 63
tile 7 1 0 1024
clean 100 1 0 0 512 22 1
read 0 8 0 1 0 512
counts 0 64 0 0
read 8 504 1 0 0 512
counts 0 0 0 1
remove 511 0 1 0 512 1 21
";

/// By base pages alone.
const BY_BASE_PAGES: &str = "\
fill 0 512 0 0 0
counts 512 0 0 0
tile 77 0 77 1101
meet 0 512 0
dirty 100 0 0 100 1 1 22
meet 0 512 0
tile 7 0 7 1031
clean 100 0 0 100 1 22 1
read 0 8 0 0 0 512
read 8 504 0 0 0 512
counts 512 0 0 0
remove 511 0 0 511 1 1 21
";

/// The pages, of which those that the tests don't use are not resident.
#[derive(Drop)]
struct Pages {
    base: Base,
    ghost frames: { frames_in base ≡ 1536 },
    ghost absent: { (p : ℕ) → 1024 ≤ p → mapping_at base p ≡ None },
}

/// What a page is mapped to in a way of a kind.
fn mapping(page: u32, kind: u32) -> Mapping {
    let frame = if page < 512 { page + 1024 } else { page - 512 };
    let region = if page < 900 { 0 } else { 900 };
    let further = match kind {
        1 => 512,
        2 => 1,
        _ => 0,
    };
    Mapping {
        frame: frame.wrapping_add(further),
        region: if kind == 3 { 8 } else { region },
        rights: if kind == 4 {
            Rights::Read
        } else {
            Rights::Write
        },
        dirty: kind == 5,
    }
}

/// Whether none of the pages that the tests use has a frame.
fn is_free(base: &Base, frame: u32) -> bool
    requires { (p : ℕ) → 1024 ≤ p → mapping_at base.now p ≡ None }
    ensures { result ≡ true → (p : ℕ) → frame_of_page base.now p ≢ Some frame }
{
    for page in 0..PAGES {
        if let Some(mapping) = base.mapping(page) {
            if mapping.frame == frame {
                return false;
            }
        }
    }
    true
}

impl Pages {
    fn create(rt: &impl Abort, alloc: Global) -> Pages {
        let base = Base::create(alloc, FRAMES).expect(rt, NO_MEMORY);
        Pages { base }
    }

    /// A page that isn't resident gets a frame that no page has.
    fn fill(&mut self, page: u32, mapping: Mapping) -> Option<Changes> {
        if page >= PAGES || mapping.frame >= FRAMES || self.base.mapping(page).is_some() {
            return None;
        }
        if !is_free(&self.base, mapping.frame) {
            return None;
        }
        Some(after_fill::<Brand>(&mut self.base, page, mapping, Blank::new(1)))
    }

    fn remove(&mut self, page: u32) -> Changes {
        after_remove::<Brand>(&mut self.base, page, Blank::new(1))
    }

    fn set_dirty(&mut self, page: u32, dirty: bool) -> Changes {
        after_dirty::<Brand>(&mut self.base, page, dirty, Blank::new(1))
    }

    /// Gives the pages of a range rights.
    fn protect(&mut self, first: u32, length: u32, word: &str, sizes: Sizes) -> Option<Moves> {
        if first > PAGES || length > PAGES {
            return None;
        }
        let rights = rights_of(word)?;
        let blank = Blank::new(1);
        Some(after_rights::<Brand>(&mut self.base, first, length, rights, sizes, blank))
    }

    /// Fills the pages from one to before another. The promotions and demotions.
    fn fill_all(&mut self, first: u32, end: u32, kind: u32, sizes: Sizes) -> Option<(u32, u32)> {
        let (mut promotions, mut demotions) = (0u32, 0u32);
        for page in first..end {
            let moves = self.fill(page, mapping(page, kind))?.moves(sizes);
            promotions = promotions.wrapping_add(moves.promotions);
            demotions = demotions.wrapping_add(moves.demotions);
        }
        Some((promotions, demotions))
    }

    /// Makes the change of one page that a word names.
    fn change(&mut self, call: &str, page: u32) -> Option<Changes> {
        match call {
            "put" => self.fill(page, mapping(page, 0)),
            "remove" => Some(self.remove(page)),
            "dirty" => Some(self.set_dirty(page, true)),
            "clean" => Some(self.set_dirty(page, false)),
            _ => None,
        }
    }

    /// Whether the page's own tile, where it has one, is among the tiles that came, if some did.
    fn has_own(&self, page: u32, changes: &Changes) -> bool {
        let came = changes.came();
        match self.base.tile_of(page, Sizes::all()) {
            Some(tile) => came.is_empty() || (came.has(&tile) && came.has_page(page)),
            None => !came.has_page(page),
        }
    }

    /// How many tiles larger than a page have one of these pages.
    fn meeting(&self, first: u32, length: u32, sizes: Sizes) -> Option<u32> {
        if first > PAGES || length > PAGES {
            return None;
        }
        Some(self.base.tiles_meeting(first, length, sizes))
    }

    /// The level, the first page and the first frame of a page's tile.
    fn tile(&self, page: u32, sizes: Sizes) -> Option<(u32, u32, u32)> {
        let tile = self.base.tile_of(page, sizes)?;
        let level = u32::from(tile.extent.size.level());
        Some((level, tile.extent.first, tile.frame))
    }

    /// Makes the change of a page that a row names. Whether what is told of it is as the row says.
    fn changes(&mut self, row: &str, sizes: Sizes) -> bool {
        let [call, page, promotions, demotions, first, length, gone, came] = words(row);
        let page = count(page);
        let Some(changes) = self.change(call, page) else {
            return false;
        };
        changes.moves(sizes) == moves(promotions, demotions, first, length)
            && are_tiles(&changes, count(gone), count(came))
            && self.has_own(page, &changes)
    }

    /// Makes the call of a row. Whether it goes as the row says.
    fn goes(&mut self, row: &str, sizes: Sizes) -> bool {
        let [call, one, two, three, four, five, six, _] = words(row);
        let (first, second, third, fourth) = (count(one), count(two), count(three), count(four));
        match call {
            "fill" => {
                let wanted = Some((fourth, count(five)));
                self.fill_all(first, second, third, sizes) == wanted
            }
            "read" | "write" => {
                let wanted = Some(moves(three, four, five, six));
                self.protect(first, second, call, sizes) == wanted
            }
            "counts" => self.base.counts(sizes) == [first, second, third, fourth],
            "meet" => self.meeting(first, second, sizes) == Some(third),
            "tile" => self.tile(first, sizes) == tile_of(two, third, fourth),
            _ => self.changes(row, sizes),
        }
    }
}

/// The level, the first page and the first frame of a tile, and none for a dash.
fn tile_of(level: &str, first: u32, frame: u32) -> Option<(u32, u32, u32)> {
    Some((number(level)?, first, frame))
}

/// The moves that four words tell.
fn moves(promotions: &str, demotions: &str, first: &str, length: &str) -> Moves {
    Moves {
        promotions: count(promotions),
        demotions: count(demotions),
        touched: PageRange {
            first: count(first),
            length: count(length),
        },
    }
}

/// Whether so many tiles went and came.
fn are_tiles(changes: &Changes, gone: u32, came: u32) -> bool {
    changes.gone().len() == gone as usize && changes.came().len() == came as usize
}

/// Asserts that a table's rows go as they say, one after another.
fn go_all(rt: &impl Abort, alloc: Global, table: &str, sizes: Sizes) {
    let mut pages = Pages::create(rt, alloc);
    for row in table.lines() {
        assert!(rt; pages.goes(row, sizes), "{row}");
    }
}

#[test]
fn a_change_makes_and_breaks_tiles(rt: HostRuntime) {
    for (table, sizes) in [
        (BY_ALL, Sizes::all()),
        (BY_FIRST_AND_LAST, Sizes::of(false, false, true)),
        (BY_MIDDLE, Sizes::of(false, true, false)),
        (WITHOUT_MIDDLE, Sizes::of(true, false, true)),
        (BY_BASE_PAGES, Sizes::of(false, false, false)),
    ] {
        go_all(&rt, rt.alloc(), table, sizes);
    }
}
