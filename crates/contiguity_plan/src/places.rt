//! The frames of the pages of each space.

ghost use Rattle.std.specs.Prelude.{◌≡◌, ℕ, ◌<◌, ◌&&◌, ◌==◌, true, if◌then◌else◌, length, Some, None, IfOk, OnOk, IfSome, IfNone, IsSome};
ghost use Rattle.std.specs.BTreeMap.{get};
ghost use Rattle.std.specs.Ordering.{nat_cmp};
ghost use Rattle.pager_model.specs.Regions.{in_range};
ghost use Rattle.contiguity_plan.specs.Places.{place_in, place_count};

use pager_model::NoMemory;
use std::alloc::Global;
use std::collections::BTreeMap;

/// The frame of each page of one space that has one.
pub(crate) type Places = BTreeMap<u32, u32>;

/// No page of so many spaces has a frame.
pub(crate) fn create(alloc: Global, spaces: u32) -> Result<Vec<Places>, NoMemory>
    requires { spaces < 1000 }
    ensures spaces { IfOk result (λ places. length places.items ≡ spaces) }
    ensures none { IfOk result (λ places. (s p : ℕ) → place_in places.items s p ≡ None) }
{
    let mut places = Vec::with_capacity(alloc, spaces as usize)?;
    for _ in 0..spaces {
        places.push(BTreeMap::new(alloc))?;
    }
    Ok(places)
}

/// The page has this frame from now on.
pub(crate) fn insert(
    places: &mut Vec<Places>,
    space: u32,
    page: u32,
    frame: u32,
) -> Result<(), NoMemory>
    requires { space < length places.old.items }
    ensures spaces { length places.new.items ≡ length places.old.items }
    ensures inserted { OnOk result ((s p : ℕ)
        → place_in places.new.items s p ≡ (if (space == s) && (p == page) then Some frame else place_in places.old.items s p)) }
{
    places[space as usize].insert(page, frame)?;
    Ok(())
}

/// The page has no frame from now on. Answers the one that it had.
pub(crate) fn remove(places: &mut Vec<Places>, space: u32, page: u32) -> Option<u32>
    requires { space < length places.old.items }
    ensures spaces { length places.new.items ≡ length places.old.items }
    ensures was { result ≡ place_in places.old.items space page }
    ensures fewer { IsSome result → place_count places.new.items < place_count places.old.items }
    ensures removed { (s p : ℕ) → place_in places.new.items s p ≡ (if (space == s) && (p == page) then None else place_in places.old.items s p) }
{
    places[space as usize].remove(&page)
}

/// Whether the page is one of the `count` pages from `first` on.
pub(crate) fn lies_in(page: u32, first: u32, count: u32) -> bool
    ensures { result ≡ in_range first count page }
{
    first <= page && page - first < count
}

/// The lowest page of a range that has a frame in its space.
fn first_in(places: &Places, first: u32, count: u32) -> Option<u32>
    ensures within { IfSome result (λ page. in_range first count page ≡ true) }
    ensures some { IfSome result (λ page. IsSome (get nat_cmp places.now page)) }
    ensures lowest { IfSome result (λ page. (p : ℕ) → p < page → in_range first count p ≡ true → get nat_cmp places.now p ≡ None) }
    ensures none { IfNone result ((p : ℕ) → in_range first count p ≡ true → get nat_cmp places.now p ≡ None) }
{
    let (&page, _) = places.range(first..).next()?;
    lies_in(page, first, count).then_some(page)
}

/// The lowest page of a range of a space that has a frame.
pub(crate) fn lowest(places: &[Places], space: u32, first: u32, count: u32) -> Option<u32>
    requires { space < length places.now }
    ensures within { IfSome result (λ page. in_range first count page ≡ true) }
    ensures some { IfSome result (λ page. IsSome (place_in places.now space page)) }
    ensures lowest { IfSome result (λ page. (p : ℕ) → p < page → in_range first count p ≡ true → place_in places.now space p ≡ None) }
    ensures none { IfNone result ((p : ℕ) → in_range first count p ≡ true → place_in places.now space p ≡ None) }
{
    first_in(&places[space as usize], first, count)
}
