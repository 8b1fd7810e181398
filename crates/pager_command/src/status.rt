//! The program's exit statuses.

ghost use Rattle.std.specs.Prelude.{◌≡◌, ◌≢◌};
ghost use Rattle.std.specs.IoError.{error_kind};
ghost use Rattle.pager_command.specs.Messages.{message_text};

use std::io::{self, ErrorKind};

/// The run is done.
pub const DONE: u8 = 0;
/// The words are of no command.
pub const USAGE: u8 = 2;
/// The input is no trace's text, the trace has more processors than the form is for, or there are fewer stores than it has spaces.
pub const REFUSED: u8 = 3;
/// A read of the source failed.
pub const READ_FAULT: u8 = 4;
/// There was no memory.
pub const MEMORY: u8 = 5;
/// A write to the sink failed.
pub const WRITE_FAULT: u8 = 6;

/// The status where no run began: the words were no text, or there was no memory for them or for the stores.
pub fn unread_words(error: &io::Error) -> u8
    ensures no_text { error_kind error.now ≡ ErrorKind.InvalidData → result ≡ USAGE }
    ensures memory { error_kind error.now ≢ ErrorKind.InvalidData → result ≡ MEMORY }
{
    match error.kind() {
        ErrorKind::InvalidData => USAGE,
        _ => MEMORY,
    }
}

/// What is said of a status where no fault is told.
pub fn message_of(status: u8) -> &'static str
    ensures { result.now ≡ message_text status }
{
    match status {
        DONE => "done",
        USAGE => "usage",
        REFUSED => "refused",
        READ_FAULT => "read fault",
        WRITE_FAULT => "write fault",
        _ => "memory",
    }
}
