//! Regions, as they are in no order.

ghost use Rattle.std.specs.Prelude.{◌<◌, ◌≤◌, IfSome};
ghost use Rattle.lackey_regions.specs.RegionPlaces.{EndsBelow, HasPage};

use pager_model::Rights;

/// A growing region: its pages, and the rights that each began with.
#[derive(Clone, Copy, Debug, Default, PartialEq, Eq)]
pub struct Region {
    pub first: u32,
    pub end: u32,
    pub rights: Rights,
}

/// The place of the region that has a page.
pub fn region_at(regions: &[Region], page: u32) -> Option<usize>
    ensures { IfSome result (HasPage regions.now page) }
{
    for (place, region) in regions.iter().enumerate() {
        if region.first <= page && page < region.end {
            return Some(place);
        }
    }
    None
}

/// The place of the nearest region below a page that no region has.
pub fn region_below(regions: &[Region], page: u32) -> Option<usize>
    ensures { IfSome result (EndsBelow regions.now page) }
{
    let mut below = None;
    let mut end = 0;
    for (place, region) in regions.iter().enumerate() {
        if region.first < region.end && end < region.end && region.end <= page {
            below = Some(place);
            end = region.end;
        }
    }
    below
}

/// The first page behind one that no region has that another region has, or the end of a range.
pub fn end_of_gap(regions: &[Region], page: u32, end: u32) -> u32
    requires { page < end }
    ensures behind { page < result }
    ensures within { result ≤ end }
{
    let mut gap_end = end;
    for region in regions {
        if page < region.first && region.first < gap_end {
            gap_end = region.first;
        }
    }
    gap_end
}

/// The first page of the gap between regions that a page is in, or the first of a range.
pub fn first_of_gap(regions: &[Region], page: u32, first: u32) -> u32
    requires { first ≤ page }
    ensures { result ≤ page }
{
    let mut gap_first = first;
    for region in regions {
        if gap_first < region.end && region.end <= page {
            gap_first = region.end;
        }
    }
    gap_first
}
