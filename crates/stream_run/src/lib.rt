//! Runs a trace as it is read, a line at a time, and writes the counts or the miss curves: in constant memory, whatever its length.
#![tactic(auto)]

mod calls;
mod report;
mod run;
mod telling;

pub use report::StreamReport;
pub use run::{Ending, Streamed, run_stream};
