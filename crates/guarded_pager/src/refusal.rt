//! Why nothing was done.

/// Why nothing was done.
#[derive(Clone, Copy, Debug, PartialEq, Eq)]
pub enum Refusal {
    /// There is too little memory.
    NoMemory,
    /// A number is out of its bounds.
    Range,
    /// 4,294,967,295 calls were made: no number is left for another.
    Counted,
}
