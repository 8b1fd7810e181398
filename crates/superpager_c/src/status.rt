//! The statuses, by number.

ghost use Rattle.std.specs.Prelude.{◌≡◌, Some};
ghost use Rattle.superpager_c.specs.Statuses.{status_of};

use frame_table::Refusal;

/// What the call does was done.
pub const DONE: u32 = 0;
/// The pool is closed.
pub const CLOSED: u32 = 1;
/// The pool is open already.
pub const OPEN: u32 = 2;
/// A page that was to be wired is claimed.
pub const CLAIMED: u32 = 11;

/// The status of a call that is refused.
pub(crate) fn status_of(why: Refusal) -> u32
    ensures { result ≡ status_of (Some why) }
{
    match why {
        Refusal::NoMemory => 3,
        Refusal::Range => 4,
        Refusal::Placed => 5,
        Refusal::Unplaced => 6,
        Refusal::Full => 7,
        Refusal::NoVictim => 8,
        Refusal::Busy => 9,
        Refusal::Idle => 10,
        Refusal::Counted => 12,
    }
}
