//! A run of the program, by its words, over a source, a sink and stores.
#![tactic(auto)]

mod checking;
mod form;
mod making;
mod outcome;
mod printing;
mod running;
mod status;
mod streaming;

pub use form::{is_command, small_number_of};
pub use outcome::Outcome;
pub use running::run;
pub use status::{DONE, MEMORY, READ_FAULT, REFUSED, USAGE, WRITE_FAULT, message_of, unread_words};
