ghost use Rattle.std.specs.Prelude.{◌≡◌, ◌<◌, ◌≤◌, Some, true};
ghost use Rattle.pager_model.specs.Agreement.{has_frame};
ghost use Rattle.pager_model.specs.Extents.{IsExtent};
ghost use Rattle.pager_model.specs.Records.{is_used, yield_in, part_at, part_count};
ghost use Rattle.reservations.specs.Kept.{reservation_at};
ghost use Rattle.frame_pool.specs.Placed.{IsPageAt};

use pager_model::{Reservation, Size, Sizes};
use reservations::Reservations;

/// The yield of the reservation by these sizes.
pub(crate) fn yields_in(
    reservations: &Reservations,
    sizes: Sizes,
    reservation: &Reservation,
) -> Option<Size>
    requires { reservation_at reservations.now reservation.now.frame ≡ Some reservation.now }
    ensures { result ≡ yield_in sizes (is_used reservations.now.used) reservation.now }
{
    let widest = reservations.yields(reservation.frame)?;
    Some(sizes.within(widest))
}

/// The page that the reservation joins to a frame of it.
pub(crate) fn page_at(reservation: &Reservation, frame: u32) -> u32
    requires has { has_frame frame (Some reservation.now) ≡ true }
    requires pages { IsExtent reservation.now.size reservation.now.first }
    ensures { IsPageAt reservation.now frame result }
{
    reservation.first + (frame - reservation.frame)
}

/// The `i`-th of the reservation's parts of a size.
pub(crate) fn part_at(whole: &Reservation, size: Size, i: u32) -> Reservation
    requires smaller { size ≤ whole.now.size }
    requires frames { IsExtent whole.now.size whole.now.frame }
    requires pages { IsExtent whole.now.size whole.now.first }
    requires one { i < part_count size whole.now }
    ensures { result ≡ part_at size whole.now i }
{
    let mut part = *whole;
    let before = i * size.pages();
    part.first += before;
    part.frame += before;
    part.size = size;
    part
}
