//! A log, as it is read.

ghost use Rattle.std.specs.Prelude.{◌≡◌, [], false};

use line_source::Ahead;

/// What was read of a log and isn't passed yet.
#[derive(Drop)]
pub struct Log {
    pub ahead: Ahead,
    /// Whether these are more bytes of a line that is too long.
    pub long: bool,
}

/// How much of a log was taken.
#[derive(Clone, Copy, Debug, PartialEq, Eq)]
pub enum Taken {
    /// A line, or a piece of one that is too long.
    Part,
    /// All of it.
    All,
}

impl Log {
    /// Nothing was read.
    pub fn new() -> Log
        ensures ahead { result.ahead ≡ [] }
        ensures long { result.long ≡ false }
    {
        Log {
            ahead: Ahead::new(),
            long: false,
        }
    }
}
