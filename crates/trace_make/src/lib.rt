//! Traces that are made from a number, to try a pager on, and the text of a trace.
//!
//! The same number makes the same trace on every machine.
#![tactic(auto)]

mod made;
mod written;

pub use made::make;
pub use written::{line_of_first, put_calls, write_trace};
