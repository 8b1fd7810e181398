//! The statuses, by number.

ghost use Rattle.std.specs.Prelude.{◌≡◌, Some};
ghost use Rattle.superpager_machine.specs.Statuses.{status_of};

use guarded_pager::Refusal;

/// What the call does was done.
pub const DONE: u32 = 0;
/// The pager is closed.
pub const CLOSED: u32 = 1;
/// The pager is open already.
pub const OPEN: u32 = 2;

/// The status of a call that is refused.
pub(crate) fn status_of(why: Refusal) -> u32
    ensures { result ≡ status_of (Some why) }
{
    match why {
        Refusal::NoMemory => 3,
        Refusal::Range => 4,
        Refusal::Counted => 5,
    }
}
