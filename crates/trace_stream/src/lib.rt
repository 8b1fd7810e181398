//! Reads the text of a trace a line at a time, in constant memory.
//!
//! The grammar is that of `trace_reader`, with three differences: a text may have any number of bytes, up to 4,294,967,295 calls, and no line of
//! more than 4,095 bytes. What is read has exactly these lines, and what is refused is refused for the line that comes next.
#![tactic(auto)]

mod beginning;
mod calls;
pub mod laws;
mod next_line;

pub use beginning::{Opening, open};
pub use calls::{MOST_STREAM_CALLS, next_call};
