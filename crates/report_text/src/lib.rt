//! The whole text of a run: its answers, the history where it is asked for, and the counts; the counts alone, or those so far; and the texts of a
//! plan, of miss curves and of a verdict.
#![tactic(auto)]

mod curve_lines;
mod entry_words;
mod plan_lines;
mod report;
mod so_far_line;
mod summary_lines;
mod text;
mod verdict_line;
mod writing;

pub use curve_lines::write_curves;
pub use plan_lines::write_plan;
pub use report::{Parts, write_report, write_summary};
pub use so_far_line::{SoFar, write_so_far};
pub use text::{LONGEST, Text};
pub use verdict_line::write_verdict;
pub use writing::Room;
