ghost use Rattle.std.specs.Prelude.{◌≡◌, ◌<◌, false, List, Option, slice_set, Some};
ghost use Rattle.pager_model.specs.declared.reservation.Reservation.{Reservation};
ghost use Rattle.reservation_lists.specs.Kept.{is_listed, without_frame};
ghost use Rattle.reservations.specs.Kept.{reservation_at};
ghost use Rattle.pager_laws.specs.Listed.{AreListed};
ghost use Rattle.frame_pool.specs.Listed.{MayBegin, WasSplit};

use crate::records::yields_in;
use pager_model::{Reservation, Sizes};
use reservation_lists::Lists;
use reservations::Reservations;

/// Puts the reservation into its list, where it isn't full.
pub(crate) fn enlist(
    lists: &mut Lists,
    reservations: &Reservations,
    sizes: Sizes,
    reservation: &Reservation,
)
    requires there { reservation_at reservations.now reservation.now.frame ≡ Some reservation.now }
    requires known { reservation.now.frame < lists.old.frames }
    requires unlisted { is_listed reservation.now.frame lists.old.lists ≡ false }
    ensures listed { (records : List (Option Reservation))
        → MayBegin sizes lists.old.lists reservations.now.used records reservation.now.frame
        → AreListed sizes lists.new.lists reservations.now.used (slice_set records reservation.now.frame (Some reservation.now)) }
    ensures room { lists.new.frames ≡ lists.old.frames }
{
    if let Some(size) = yields_in(reservations, sizes, reservation) {
        if size.level() < 3 {
            lists.insert(size, reservation.stamp, reservation.frame);
        }
    }
}

/// Puts the reservation into its list, where it isn't full, and takes it out of the one that it stood in: its used places or its
/// stamp changed.
pub(crate) fn relist(
    lists: &mut Lists,
    reservations: &Reservations,
    sizes: Sizes,
    reservation: &Reservation,
)
    requires there { reservation_at reservations.now reservation.now.frame ≡ Some reservation.now }
    requires known { reservation.now.frame < lists.old.frames }
    ensures listed { (records : List (Option Reservation))
        → MayBegin sizes (without_frame reservation.now.frame lists.old.lists) reservations.now.used records reservation.now.frame
        → AreListed sizes lists.new.lists reservations.now.used (slice_set records reservation.now.frame (Some reservation.now)) }
    ensures room { lists.new.frames ≡ lists.old.frames }
{
    match yields_in(reservations, sizes, reservation) {
        Some(size) if size.level() < 3 => {
            lists.move_to(size, reservation.stamp, reservation.frame);
        }
        _ => lists.remove(reservation.frame),
    }
}

/// Takes a reservation out of its list, where it is in one. One of a single frame is in none: its place is used.
pub(crate) fn delist(lists: &mut Lists, reservation: &Reservation)
    requires known { reservation.now.frame < lists.old.frames }
    requires alone { reservation.now.size ≡ 0 → is_listed reservation.now.frame lists.old.lists ≡ false }
    ensures { lists.new ≡ record lists.old { lists = without_frame reservation.now.frame lists.old.lists } }
{
    // A reservation that was broken leaves many of a single frame. For these nothing that the lists keep is touched in memory.
    if reservation.size.level() > 0 {
        lists.remove(reservation.frame);
    }
}

/// Puts the parts of a reservation that was split, and was in these records no more, into their lists, where they are reservations
/// and not full.
pub(crate) fn enlist_parts(
    lists: &mut Lists,
    reservations: &Reservations,
    sizes: Sizes,
    whole: &Reservation,
)
    requires splits { 0 < whole.now.size }
    requires split { WasSplit sizes lists.old reservations.now whole.now }
    ensures listed { AreListed sizes lists.new.lists reservations.now.used reservations.now.records }
    ensures room { lists.new.frames ≡ lists.old.frames }
{
    // The parts of eight frames are of one frame each, and a reservation of one frame is full: its place is used.
    if whole.size.level() == 1 {
        return;
    }
    let pages = whole.size.pages() / 8;
    for i in 0..8 {
        let first = whole.frame + i * pages;
        if let Some(part) = reservations.get(first) {
            enlist(lists, reservations, sizes, &part);
        }
    }
}
