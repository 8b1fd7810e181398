//! Why there is no history.

/// Why there is no history.
#[derive(Clone, Copy, Debug, PartialEq, Eq)]
pub enum HistoryFault {
    /// The first line that can't stand there, or a rest behind the line `end`, by its number from 1.
    Line { number: u64 },
    /// No line is refused, and the bytes end before the line `end`.
    NoEnd,
    /// There isn't enough memory.
    NoMemory,
}
