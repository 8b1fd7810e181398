//! Reads the lines of a trace's text: the first one, a daemon's, and those of calls.
//!
//! A line's words are told apart, and the form of its name is filled with their numbers. What is read has exactly these words, and what is
//! refused has the cause that the forms give. `cut` parts a line from the text behind it.
#![tactic(auto)]

mod cause;
mod front;
mod line;
mod word;

pub use cause::LineCause;
pub use front::cut_call;
pub use line::{Head, call, daemon, daemon_numbers, first_line};
pub use word::{any_number, cut, words};
