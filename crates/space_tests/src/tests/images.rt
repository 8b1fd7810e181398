//! The processors' images, in worked rows.
ghost use Rattle.std.specs.Prelude.{◌≡◌, ◌<◌, length};

use super::{NO_MEMORY, count, size, words};
use pager_model::{Extent, PageRange, Rights, Tile};
use std::alloc::Global;
use std::process::Abort;
use tlb_images::Images;

// In each table the images of three processors are without a tile at first. Its rows:
//
//     touch PROCESSOR FIRST END KIND HITS    the pages' tiles are used in turn, from the first page to before the end, and so many hit
//     has PROCESSOR FIRST END KIND COUNT     the image has so many of the pages' tiles
//     keep FIRST LENGTH                      of the tiles that begin in the range those stay that aren't dirty
//     below PAGE                             those stay that begin below the page and aren't dirty
//
// A tile of kind 0 is of one page, and dirty where the page is odd; the kinds 1 to 4 differ from it in one thing each, and kind 5 in two.

/// A tile hits from its second use on.
const SECOND: &str = "\
has 0 5 6 0 0
touch 0 5 6 0 0
touch 0 5 6 0 1
touch 0 5 6 0 1
has 0 0 10 0 1
";

/// A use makes a tile the youngest: five new tiles replace those that were used longest ago.
const YOUNGEST: &str = "\
touch 0 0 128 0 0
touch 0 0 1 0 1
touch 0 127 128 0 1
touch 0 64 65 0 1
touch 0 2 3 0 1
touch 0 64 65 0 1
touch 0 200 205 0 0
has 0 0 1 0 1
has 0 1 2 0 0
has 0 2 3 0 1
has 0 3 7 0 0
has 0 0 205 0 128
touch 0 64 65 0 1
touch 0 2 3 0 1
touch 0 127 128 0 1
touch 0 0 1 0 1
touch 0 7 8 0 1
touch 0 126 127 0 1
touch 0 200 205 0 5
";

/// The 129th tile replaces the oldest, in its own processor's image alone.
const OLDEST: &str = "\
touch 0 0 128 0 0
touch 1 0 1 0 0
touch 0 128 129 0 0
has 0 0 130 0 128
touch 0 1 129 0 128
touch 1 0 1 0 1
touch 0 0 1 0 0
has 0 0 130 0 128
has 1 0 130 0 1
";

/// A tile hits as a whole.
const WHOLE: &str = "\
touch 0 0 8 0 0
has 0 0 1 0 1
has 0 0 1 1 0
has 0 0 1 2 0
has 0 0 1 3 0
has 0 0 1 4 0
touch 0 0 1 1 0
touch 0 0 1 2 0
touch 0 0 1 3 0
touch 0 0 1 4 0
touch 0 0 1 1 1
touch 0 0 1 2 1
touch 0 0 1 3 1
touch 0 0 1 4 1
has 0 0 10 0 8
";

/// What passes the test is kept.
const PASSED: &str = "\
touch 0 0 10 0 0
below 7
has 0 0 10 0 4
touch 0 0 1 0 1
touch 0 2 3 0 1
touch 0 4 5 0 1
touch 0 6 7 0 1
below 7
has 0 0 10 0 4
touch 0 8 9 0 0
";

/// What begins in a range and fails the test goes. Beside pages by themselves there is a tile of the pages 8 to 15: none begins in the first two
/// ranges, and that one begins before the third, which it reaches into.
const IN_RANGES: &str = "\
touch 0 0 8 0 0
touch 0 8 9 5 0
touch 0 16 24 0 0
keep 9 7
has 0 0 24 0 16
has 0 8 9 5 1
keep 17 0
has 0 0 24 0 16
keep 15 4
has 0 0 24 0 15
has 0 8 9 5 1
keep 5 4
has 0 0 24 0 13
has 0 8 9 5 0
keep 0 24
has 0 0 24 0 8
touch 0 0 1 0 1
touch 0 6 7 0 1
touch 0 16 17 0 1
touch 0 22 23 0 1
";

/// Pages with one remainder by 32,768 are told apart, also by ranges over the highest remainder, and by one that is longer than there are remainders.
const REMAINDERS: &str = "\
touch 0 5 6 0 0
touch 0 32773 32774 0 0
touch 0 32767 32768 0 0
touch 0 65535 65536 0 0
has 0 65541 65542 0 0
keep 65541 1
keep 6 32761
has 0 0 65536 0 4
keep 5 1
keep 5 1
has 0 5 6 0 0
has 0 0 65536 0 3
keep 65534 3
has 0 65535 65536 0 0
has 0 0 65536 0 2
keep 32760 10
has 0 0 65536 0 1
has 0 32773 32774 0 1
keep 6 40000
has 0 0 65536 0 0
touch 0 5 6 0 0
touch 0 32773 32774 0 0
touch 0 5 6 0 1
touch 0 32773 32774 0 1
";

/// Each processor has its own image, and each of them loses what goes.
const OWN: &str = "\
touch 0 5 6 0 0
touch 0 7 8 0 0
touch 1 5 6 0 0
touch 1 8 9 0 0
has 2 0 10 0 0
touch 2 7 8 0 0
touch 2 7 8 0 1
has 0 0 10 0 2
has 1 0 10 0 2
keep 5 1
has 0 0 10 0 1
has 1 0 10 0 1
touch 0 7 8 0 1
touch 1 8 9 0 1
touch 0 5 6 0 0
below 8
has 0 0 10 0 0
has 1 0 10 0 0
has 2 0 10 0 0
";

/// A tile of a kind that begins at a page.
fn tile(page: u32, kind: u32) -> Tile {
    Tile {
        extent: Extent {
            size: size(u32::from(kind == 1 || kind == 5)),
            first: page,
        },
        frame: if kind == 2 { 512 } else { page },
        rights: if kind == 3 {
            Rights::Read
        } else {
            Rights::Write
        },
        dirty: (page % 2 == 1) != (kind >= 4),
    }
}

/// How many tiles of a kind of the pages from one to before another hit, one after another.
fn touch_all(images: &mut Images, processor: u32, first: u32, end: u32, kind: u32) -> u32
    requires { processor < length images.old }
    ensures { length images.new ≡ length images.old }
{
    let mut hits = 0u32;
    for page in first..end {
        hits = hits.wrapping_add(u32::from(images.touch(processor, tile(page, kind))));
    }
    hits
}

/// How many tiles of a kind of these pages a processor's image has.
fn count_in(images: &Images, processor: u32, first: u32, end: u32, kind: u32) -> u32
    requires { processor < length images.now }
{
    let mut there = 0u32;
    for page in first..end {
        there = there.wrapping_add(u32::from(images.has(processor, Some(tile(page, kind)))));
    }
    there
}

/// Keeps of the tiles that begin in a range those that aren't dirty.
fn keep_clean_in(images: &mut Images, range: PageRange)
    ensures { length images.new ≡ length images.old }
{
    images.retain_in(range, |tile| !tile.dirty);
}

/// Keeps the tiles below a page that aren't dirty.
fn keep_clean_below(images: &mut Images, page: u32)
    ensures { length images.new ≡ length images.old }
{
    images.retain(|tile| !tile.dirty && tile.extent.first < page);
}

/// Makes the call of a row. Whether it goes as the row says.
fn goes(images: &mut Images, row: &str) -> bool
    requires { length images.old ≡ 3 }
    ensures { length images.new ≡ 3 }
{
    let [call, one, two, three, kind, number, ..] = words(row);
    let (one, two, three, kind) = (count(one), count(two), count(three), count(kind));
    match call {
        "touch" => one < 3 && touch_all(images, one, two, three, kind) == count(number),
        "has" => one < 3 && count_in(images, one, two, three, kind) == count(number),
        "keep" => {
            keep_clean_in(
                images,
                PageRange {
                    first: one,
                    length: two,
                },
            );
            true
        }
        _ => {
            keep_clean_below(images, one);
            true
        }
    }
}

/// Asserts that a table's rows go as they say, one after another.
fn go_all(rt: &impl Abort, alloc: Global, table: &str) {
    let mut images = Images::create(alloc, 3).expect(rt, NO_MEMORY);
    for row in table.lines() {
        assert!(rt; goes(&mut images, row), "{row}");
    }
}

#[test]
fn images_have_what_was_used_last_and_stayed(rt: HostRuntime) {
    for table in [
        SECOND, YOUNGEST, OLDEST, WHOLE, PASSED, IN_RANGES, REMAINDERS, OWN,
    ] {
        go_all(&rt, rt.alloc(), table);
    }
}
