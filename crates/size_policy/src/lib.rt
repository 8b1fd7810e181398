//! The size of a new reservation: the largest extent round a page that lies within bounds, has no more pages than a cap,
//! and meets no other reservation.
#![tactic(auto)]

ghost use Rattle.std.specs.Bool.{OnTrue};
ghost use Rattle.std.specs.Prelude.{◌≡◌, ℕ, ◌%◌, ◌^◌, ◌<◌, ◌≤◌, Bool};
ghost use Rattle.pager_model.specs.Extents.{extent_start};
ghost use Rattle.pager_model.specs.PreferredSize.{fits, preferred_size};
ghost use Rattle.size_policy.specs.Answers.{AsksAny, AnswersTest};
ghost use Rattle.size_policy.specs.Suits.{LiesWithin};
ghost use Rattle.pager_model.specs.Bounds.{space_pages};

pub mod laws;

use pager_model::{Extent, Size, Want};

/// The extent of a size round a page.
pub fn extent_round(size: Size, page: u32) -> Extent
    ensures size { result.size ≡ size }
    ensures first { result.first ≡ extent_start size page }
    ensures aligned { result.first % 8 ^ size ≡ 0 }
    ensures below { result.first ≤ page }
{
    let pages = size.pages();
    Extent {
        size,
        first: page / pages * pages,
    }
}

/// Whether the extent of this size round the page lies within the want's bounds, has no more pages than its cap, and meets
/// nothing.
fn may_reserve<F: Fn(Extent) -> bool>(size: Size, page: u32, want: &Want, meets: &F) -> bool
    requires level { size ≤ 3 }
    requires page { page < space_pages }
    requires callable { AsksAny (F.pre meets.now) }
    ensures exact { (test : ℕ → ℕ → Bool) → AnswersTest (F.post meets.now) test
        → result ≡ fits test page want.now size }
    ensures within { OnTrue result (LiesWithin want.now page size) }
{
    let extent = extent_round(size, page);
    want.low <= extent.first
        && extent.first + size.pages() <= want.high
        && size.pages() <= want.cap
        && !meets(extent)
}

/// The preferred size for a page: the largest whose extent round the page lies within the want's bounds, has no more pages than
/// its cap, and meets nothing, by the answers of `meets`.
///
/// Where no larger extent does, it is the page alone. `meets` is not asked of that one: a page that gets a reservation is in none.
pub fn preferred<F: Fn(Extent) -> bool>(page: u32, want: &Want, meets: F) -> Size
    requires inside { (want.now.low ≤ page) × (page < want.now.high) }
    requires space { want.now.high ≤ space_pages }
    requires cap { 1 ≤ want.now.cap }
    requires callable { AsksAny (F.pre meets) }
    ensures exact { (test : ℕ → ℕ → Bool) → AnswersTest (F.post meets) test
        → result ≡ preferred_size test page want.now }
    ensures within { LiesWithin want.now page result }
{
    for level in (1..4u8).rev() {
        let size = Size::at_level(level);
        if may_reserve(size, page, want, &meets) {
            return size;
        }
    }
    Size::at_level(0)
}
