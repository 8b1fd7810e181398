//! The reservations in the map of their pages, and what the map answers of them. A counted call counts its steps on a blank of its own,
//! from 0.

ghost use Rattle.std.specs.Prelude.{◌≡◌, ℕ, ◌/◌, ◌^◌, ◌<◌, ◌≤◌, true, List, Option, Some, None, MatchOption, slice_get, slice_index_or, slice_set, option_map};
ghost use Rattle.std.specs.Bool.{OnTrue, OnFalse};
ghost use Rattle.pager_model.specs.declared.reservation.Reservation.{Reservation};
ghost use Rattle.pager_model.specs.Extents.{IsExtent};
ghost use Rattle.population_map.specs.Populations.{page_at, id_of, is_placed, space_count, IsInNone};
ghost use Rattle.reservations.specs.declared.part.Part.{Part};
ghost use Rattle.frame_pool.specs.Mapped.{IsMapped, MayEnter, WasSplitFrom};
ghost use Rattle.pager_model.specs.Bounds.{space_pages};

use crate::records::page_at;
use pager_model::{Extent, Reservation, Steps};
use population_map::PopulationMap;
use reservations::Part;
use std::sync::ledger::{Blank, Ledger};

/// The pages of a reservation.
fn pages_of(reservation: &Reservation) -> Extent
    ensures { result ≡ record { size = reservation.now.size; first = reservation.now.first } }
{
    Extent {
        size: reservation.size,
        first: reservation.first,
    }
}

/// Places the pages of a reservation.
pub(crate) fn insert(map: &mut PopulationMap, reservation: &Reservation)
    requires { (records : List (Option Reservation)) × IsMapped map.old records × MayEnter records reservation.now }
    ensures { (records : List (Option Reservation)) → IsMapped map.old records → MayEnter records reservation.now
        → IsMapped map.new (slice_set records reservation.now.frame (Some reservation.now)) }
{
    map.insert(reservation.space, pages_of(reservation), reservation.frame);
}

/// Takes the pages of a reservation out.
pub(crate) fn remove(map: &mut PopulationMap, reservation: &Reservation)
    requires pages { IsExtent reservation.now.size reservation.now.first }
    requires stands { (records : List (Option Reservation)) × IsMapped map.old records
        × (slice_index_or records reservation.now.frame None ≡ Some reservation.now) }
    ensures { (records : List (Option Reservation)) → IsMapped map.old records
        → slice_index_or records reservation.now.frame None ≡ Some reservation.now
        → IsMapped map.new (slice_set records reservation.now.frame None) }
{
    map.remove(reservation.space, pages_of(reservation));
}

/// Places the eight parts that a reservation was split into in its stead, and takes those out that are empty, and so no reservations.
pub(crate) fn split(map: &mut PopulationMap, whole: &Reservation, parts: &[Part; 8])
    requires splits { 0 < whole.now.size }
    requires split { (after : List (Option Reservation)) × WasSplitFrom map.old after parts.now whole.now }
    ensures { (after : List (Option Reservation)) → WasSplitFrom map.old after parts.now whole.now → IsMapped map.new after }
{
    map.split(whole.space, pages_of(whole), &first_frames(parts));
    for part in parts {
        if part.empty {
            let pages = Extent {
                size: part.extent.size,
                first: page_at(whole, part.extent.first),
            };
            map.remove(whole.space, pages);
        }
    }
}

/// The first frames of the parts.
fn first_frames(parts: &[Part; 8]) -> [u32; 8]
    ensures { (i : ℕ) → i < 8 → slice_get result i ≡ option_map (λ (part : Part). part.extent.first) (slice_get parts.now i) }
{
    let mut frames = [0; 8];
    for i in 0..8 {
        frames[i] = parts[i].extent.first;
    }
    frames
}

/// The first frame of the reservation that has the page of a space, by at most four looks.
pub(crate) fn find<L: Ledger>(
    map: &PopulationMap,
    space: u32,
    page: u32,
    blank: Blank,
) -> Option<u32>
    requires name { blank.name ≡ L.name }
    requires parts { blank.parts ≡ L.parts }
    requires share { 0 < blank.parts }
    requires space { space < space_count map.now }
    requires page { page < space_pages }
    ensures { MatchOption result (IsInNone map.now (page_at space page))
        (λ id. (size : ℕ) × (size ≤ 3) × (id_of map.now size (page_at space page) ≡ Some id)) }
{
    let (book, share) = blank.open::<L>();
    map.find(space, page, &mut Steps::begin(book, share))
}

/// Whether a reservation of the space has a page of the extent, by at most four looks.
pub(crate) fn meets<L: Ledger>(
    map: &PopulationMap,
    space: u32,
    extent: Extent,
    blank: Blank,
) -> bool
    requires name { blank.name ≡ L.name }
    requires parts { blank.parts ≡ L.parts }
    requires share { 0 < blank.parts }
    requires space { space < space_count map.now }
    requires aligned { IsExtent extent.size extent.first }
    requires within { extent.first < space_pages }
    ensures meets { OnTrue result ((page : ℕ) × (page / 8 ^ extent.size ≡ page_at space extent.first / 8 ^ extent.size)
        × (is_placed map.now page ≡ true)) }
    ensures apart { OnFalse result ((page : ℕ) → page / 8 ^ extent.size ≡ page_at space extent.first / 8 ^ extent.size
        → IsInNone map.now page) }
{
    let (book, share) = blank.open::<L>();
    map.meets(space, extent, &mut Steps::begin(book, share))
}
