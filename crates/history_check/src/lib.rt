//! Whether a history is a legal one of a trace, judged entry by entry.
//!
//! An entry's parts and numbers are looked at first, then its processor's order, its space and the frames. The first bad entry ends it, so the state
//! before an entry is always that of a legal history, whose laws tell most of what the frames would have to be asked.
#![tactic(auto)]

mod checker;
mod clear;
mod history;
mod judge;
pub mod laws;
mod parts;
mod shows;
mod texts;
mod verdict;

pub use history::check;
pub use history_text::{AllFault, HistoryFault, cut, read_all, read_history};
pub use texts::{Judgeable, read_texts};
pub use verdict::Verdict;
