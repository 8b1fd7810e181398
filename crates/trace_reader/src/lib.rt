//! Reads the text of a trace.
//!
//! The text is read to its end first, since more bytes than it may have are refused before all
//! else. Then one line after the other is cut off, its words are told apart, and the form of its
//! name is filled with their numbers. What is read has exactly that text, and what is refused has
//! the refusal of the grammar.
#![tactic(auto)]

mod fault;
mod input;
pub mod laws;
mod text;

pub use fault::TraceFault;
pub use input::{AllFault, read_trace, read_within};
pub use text::{first_call, parse};
pub use trace_lines::LineCause;
