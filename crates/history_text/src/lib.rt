//! Reads the text of a history of a trace.
//!
//! One line after the other is cut off, its words are told apart, and the kind of its name is filled with them. What is read has exactly that text,
//! and a text that is refused is refused at the first line that can't stand there.
#![tactic(auto)]

mod answer;
mod calls;
mod claims;
mod fault;
mod input;
pub mod laws;
mod line;
mod name;
mod numbers;
mod pages;
mod part;
mod reply;
mod text;
mod what;
mod word;

pub use fault::HistoryFault;
pub use input::read_all;
pub use text::{cut, read_history};
pub use trace_reader::AllFault;
