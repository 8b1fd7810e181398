//! The level of the preferred size, in worked rows.
ghost use Rattle.std.specs.Prelude.{◌<◌};

use super::{count, level_of, words};
use pager_model::{Extent, Want};
use size_policy::preferred;
use std::process::Abort;

/// The level that is preferred for a page where the pages from `taken.0` to before `taken.1` have a reservation. None if the page isn't in
/// its region, or the region isn't in a space.
fn level_among(taken: (u32, u32), page: u32, want: &Want) -> Option<u8> {
    if page < want.low || want.high <= page || 1_048_576 < want.high || want.cap < 1 {
        return None;
    }
    let meets = |extent: Extent| extent.first < taken.1
        && taken.0 < extent.first + extent.size.pages();
    Some(preferred(page, want, meets).level())
}

/// Each row is `FIRST END PAGE LOW HIGH CAP LEVEL`: where the pages from FIRST to before END have a reservation, this level is preferred for a page
/// of a region from page LOW to before page HIGH, of which a reservation may have CAP pages. Words behind the level say what the rows show. So
/// `1023 1024 600 0 4096 4096 2` is read: page 1023 alone has a reservation, and for page 600 of the region from page 0 to before page 4096, with
/// a cap of 4096 pages, level 2 is preferred.
const ROWS: &str = "\
0 0 512 512 1024 4096 3 the ends of a region
0 0 1023 512 1024 4096 3
0 0 513 513 1024 4096 0
0 0 520 513 1024 4096 1
0 0 600 513 1024 4096 2
0 0 1000 512 1023 4096 1
0 0 959 512 1023 4096 2
0 0 5 5 6 4096 0
0 0 1048575 0 1048576 4096 3
0 0 600 0 4096 1 0 the cap
0 0 600 0 4096 7 0
0 0 600 0 4096 8 1
0 0 600 0 4096 63 1
0 0 600 0 4096 64 2
0 0 600 0 4096 511 2
0 0 600 0 4096 512 3
0 512 600 0 4096 4096 3 no reservation is met
1024 2048 600 0 4096 4096 3
1023 1024 600 0 4096 4096 2
639 640 600 0 4096 4096 1
576 577 600 0 4096 4096 1
607 608 600 0 4096 4096 0
601 602 600 0 4096 4096 0
";

/// Whether the level of a row is preferred.
fn is_preferred(row: &str) -> bool {
    let [first, end, page, low, high, cap, level, _] = words(row);
    let want = Want {
        low: count(low),
        high: count(high),
        cap: count(cap),
        wired: false,
    };
    let taken = (count(first), count(end));
    level_among(taken, count(page), &want) == Some(level_of(level))
}

#[test]
fn keeps_to_the_region_and_its_cap_and_meets_no_reservation(rt: HostRuntime) {
    for row in ROWS.lines() {
        assert!(rt; is_preferred(row), "{row}");
    }
}
