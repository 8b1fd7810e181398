//! Why there is no whole trace.

ghost use Rattle.std.specs.Prelude.{◌≡◌};
ghost use Rattle.from_lackey.specs.declared.stop.Stop.TheVariants.{NoMemory, ReadFault, WriteFault};

use io_core::{ReadFailed, WriteFailed};
use lackey_regions::Refusal;
use std::alloc::AllocError;
use std::fmt::{self, Display, Formatter, Write};

/// Why there is no whole trace.
#[derive(Clone, Copy, Debug, PartialEq, Eq)]
pub enum Stop {
    /// The words behind the program's name ask for nothing.
    Usage,
    /// This line, counted from 1, can't become calls.
    Line { number: u64, refusal: Refusal },
    ReadFault,
    WriteFault,
    /// There was no memory to begin with.
    NoMemory,
    /// The log has more bytes than can be counted.
    TooLong,
}

/// The status that the program ends with.
pub fn status_of(stop: &Stop) -> u8 {
    match stop {
        Stop::Usage => 2,
        Stop::Line {
            refusal: Refusal::NoMemory,
            ..
        } => 5,
        Stop::Line { .. } | Stop::TooLong => 3,
        Stop::ReadFault => 4,
        Stop::NoMemory => 5,
        Stop::WriteFault => 6,
    }
}

impl Display for Stop {
    fn fmt<W: Write>(&self, f: &mut Formatter<W>) -> fmt::Result {
        match self {
            Stop::Usage => f.write_str("usage"),
            Stop::Line { number, refusal } => match refusal {
                Refusal::MorePieces => write!(f, "line {number}: more than 8 GiB"),
                Refusal::MoreRegions => write!(f, "line {number}: more than 64 regions"),
                Refusal::NoMemory => f.write_str("memory"),
            },
            Stop::ReadFault => f.write_str("read fault"),
            Stop::WriteFault => f.write_str("write fault"),
            Stop::NoMemory => f.write_str("memory"),
            Stop::TooLong => f.write_str("the log is too long"),
        }
    }
}

impl From<ReadFailed> for Stop {
    ghost from_gives = { λ _ stop. stop ≡ ReadFault };

    fn from(_: ReadFailed) -> Stop {
        Stop::ReadFault
    }
}

impl From<WriteFailed> for Stop {
    ghost from_gives = { λ _ stop. stop ≡ WriteFault };

    fn from(_: WriteFailed) -> Stop {
        Stop::WriteFault
    }
}

impl From<AllocError> for Stop {
    ghost from_gives = { λ _ stop. stop ≡ NoMemory };

    fn from(_: AllocError) -> Stop {
        Stop::NoMemory
    }
}
