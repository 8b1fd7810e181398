//! Why a program's memory becomes no trace.

ghost use Rattle.std.specs.Prelude.{◌≡◌};
ghost use Rattle.lackey_regions.specs.declared.refusal.Refusal.TheVariants.{NoMemory};

use std::alloc::{AllocError, AllocFailed};

/// Why a line becomes no calls.
#[derive(Clone, Copy, Debug, PartialEq, Eq)]
pub enum Refusal {
    /// Its page is of a piece of 4 MiB for which the space has no place left.
    MorePieces,
    /// Its pages would become one region more than a space has.
    MoreRegions,
    /// There was no memory for the calls. No clause can tell why an allocation fails.
    NoMemory,
}

impl From<AllocError> for Refusal {
    ghost from_gives = { λ _ refusal. refusal ≡ NoMemory };

    fn from(_: AllocError) -> Refusal {
        Refusal::NoMemory
    }
}

impl<T: Drop> From<AllocFailed<T>> for Refusal {
    ghost from_gives = { λ _ refusal. refusal ≡ NoMemory };

    fn from(_: AllocFailed<T>) -> Refusal {
        Refusal::NoMemory
    }
}
