//! Replays of a trace: in one thread, by lines, by a schedule that is listed or drawn, and with a thread for each processor.
#![tactic(auto)]

mod drawn;
mod file_order;
mod jobs;
mod scheduled;
mod stepping;
mod threads;

pub use drawn::replay_drawn;
pub use file_order::replay_file_order;
pub use pager_core::Gathered;
pub use scheduled::replay_schedule;
pub use threads::replay;
