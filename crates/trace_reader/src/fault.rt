//! Why there is no trace.

use std::fmt;
use trace_lines::LineCause;

/// Why there is no trace, or none that can be run, or no history of it.
#[derive(Clone, Copy, Debug, PartialEq, Eq)]
pub enum TraceFault {
    /// A read failed.
    ReadFault,
    /// There are more bytes than a text may have.
    TooLong,
    /// A line, by its number from 1, is no line of the grammar.
    Line { number: u64, cause: LineCause },
    /// A line, by its number from 1, has more bytes than a line of a stream may have.
    LongLine { number: u64 },
    /// The bytes end before a line `end`.
    NoEnd,
    /// There are more calls than a text may have.
    TooManyCalls,
    /// A run was given fewer stores than the trace has spaces.
    TooFewStores { stores: u64, spaces: u32 },
    /// A run that is for one processor alone was asked for, of a trace of so many.
    OneProcessor { processors: u32 },
    /// A line behind the trace, by its number from 1 there, is no line of a history of it.
    HistoryLine { number: u64 },
    /// The bytes behind the trace end before a line `end`.
    HistoryNoEnd,
    /// There isn't enough memory.
    NoMemory,
}

impl fmt::Display for TraceFault {
    fn fmt<W: fmt::Write>(&self, f: &mut fmt::Formatter<W>) -> fmt::Result {
        match self {
            TraceFault::ReadFault => f.write_str("read fault"),
            TraceFault::TooLong => f.write_str("trace too long"),
            TraceFault::Line { number, cause } => write!(f, "line {number}: {cause}"),
            TraceFault::LongLine { number } => write!(f, "line {number}: long"),
            TraceFault::NoEnd => f.write_str("no end"),
            TraceFault::TooManyCalls => f.write_str("too many calls"),
            TraceFault::TooFewStores { stores, spaces } => {
                write!(f, "{stores} stores for {spaces} spaces")
            }
            TraceFault::OneProcessor { processors } => {
                write!(f, "curve of {processors} processors")
            }
            TraceFault::HistoryLine { number } => write!(f, "history line {number}"),
            TraceFault::HistoryNoEnd => f.write_str("history without end"),
            TraceFault::NoMemory => f.write_str("memory"),
        }
    }
}
