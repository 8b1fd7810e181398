//! What is said of a history.

/// What a checker says of a history.
#[derive(Clone, Copy, Debug, PartialEq, Eq)]
pub enum Verdict {
    /// It is legal, and shows the trace.
    Yes,
    /// The entries before this one are legal, and with it they aren't; or all are, and they don't show the trace.
    No { entry: u64 },
}
