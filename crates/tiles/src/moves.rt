//! How many tiles a change made and broke, and where.

ghost use Rattle.std.specs.Prelude.{◌≡◌, ◌+◌, ◌<◌, ◌≤◌, ℕ, false, nat_lt, max, if◌then◌else◌};
ghost use Rattle.tiles.specs.Blocks.{is_grown_at};
ghost use Rattle.tiles.specs.Touched.{IsInSpace, extent_range, is_touched};
ghost use Rattle.pager_model.specs.Bounds.{space_pages};

use pager_model::{PageRange, Size};

/// How many tiles of size 1 or more a change made where there was none as large, how many it broke, and where.
#[derive(Clone, Copy, Debug, PartialEq, Eq)]
pub struct Moves {
    pub promotions: u32,
    pub demotions: u32,
    /// A tile that begins outside of this range is a tile still.
    pub touched: PageRange,
}

impl Moves {
    /// A change that made no tile and broke none.
    pub(crate) const NONE: Moves = Moves {
        promotions: 0,
        demotions: 0,
        touched: PageRange {
            first: 0,
            length: 0,
        },
    };

    /// The moves of a change of one page, whose tile had one size and has another now: in the larger of the two.
    pub(crate) fn of_one(page: u32, before: Size, after: Size) -> Moves
        ensures promotions { result.promotions ≡ (if nat_lt before after then 1 else 0) }
        ensures demotions { result.demotions ≡ (if nat_lt after before then 1 else 0) }
        ensures touched { result.touched ≡ extent_range (max before after) page }
    {
        let pages = Size::at_level(before.level().max(after.level())).pages();
        Moves {
            promotions: u32::from(before.level() < after.level()),
            demotions: u32::from(after.level() < before.level()),
            touched: PageRange {
                first: page - page % pages,
                length: pages,
            },
        }
    }

    /// The moves that are counted at a page of which the tile had one level and has another now: of the tiles that begin there. They tell
    /// no range.
    pub(crate) fn at(page: u32, before: u8, after: u8) -> Moves
        requires before { before ≤ 3 }
        requires after { after ≤ 3 }
        ensures promotions { result.promotions ≡ (if is_grown_at page before after then 1 else 0) }
        ensures demotions { result.demotions ≡ (if is_grown_at page after before then 1 else 0) }
        ensures in_space { IsInSpace result.touched }
    {
        Moves {
            promotions: u32::from(is_grown_at(page, before, after)),
            demotions: u32::from(is_grown_at(page, after, before)),
            ..Moves::NONE
        }
    }

    /// The moves of two changes, neither of which undoes a part of the other.
    pub(crate) fn and(self, other: Moves) -> Moves
        requires promotions { self.promotions + other.promotions ≤ space_pages }
        requires demotions { self.demotions + other.demotions ≤ space_pages }
        requires in_space { IsInSpace self.touched }
        requires other_in_space { IsInSpace other.touched }
        ensures promotions { result.promotions ≡ self.promotions + other.promotions }
        ensures demotions { result.demotions ≡ self.demotions + other.demotions }
        ensures in_space { IsInSpace result.touched }
        ensures touched { (page : ℕ) → is_touched result.touched page ≡ false → (is_touched self.touched page ≡ false) × (is_touched other.touched page ≡ false) }
    {
        Moves {
            promotions: self.promotions + other.promotions,
            demotions: self.demotions + other.demotions,
            touched: hull(self.touched, other.touched),
        }
    }
}

/// The smallest range that has all pages of two.
fn hull(one: PageRange, other: PageRange) -> PageRange
    requires one { IsInSpace one }
    requires other { IsInSpace other }
    ensures in_space { IsInSpace result }
    ensures outside { (page : ℕ) → is_touched result page ≡ false → (is_touched one page ≡ false) × (is_touched other page ≡ false) }
{
    if one.length == 0 {
        return other;
    }
    if other.length == 0 {
        return one;
    }
    let first = one.first.min(other.first);
    let end = (one.first + one.length).max(other.first + other.length);
    PageRange {
        first,
        length: end - first,
    }
}

/// Whether a page begins a tile of a level that is above the one of its tile before.
fn is_grown_at(page: u32, before: u8, after: u8) -> bool
    requires { after ≤ 3 }
    ensures { result ≡ is_grown_at page before after }
{
    before < after && page % Size::at_level(after).pages() == 0
}
