/// Why a call did nothing.
#[derive(Clone, Copy, Debug, PartialEq, Eq)]
pub enum Refusal {
    /// A number is out of its bounds, or the want is not for the page.
    Range,
    /// No memory could be had.
    NoMemory,
    /// The page has a frame already.
    Placed,
    /// The page has no frame.
    Unplaced,
    /// No frame is free, and every reservation is full.
    Full,
    /// Every used frame is wired or claimed.
    NoVictim,
    /// The processor claims or holds a frame already.
    Busy,
    /// The processor claims no frame, or holds none.
    Idle,
    /// No further change can be counted.
    Counted,
}
