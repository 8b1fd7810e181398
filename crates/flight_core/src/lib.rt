//! A call or a daemon's turn in progress, step by step, and what takes the entries that it makes.
//!
//! A flight is a call, or a turn of a paging daemon, in one of its phases. Each step does what the table of steps says of the phase, under the locks that
//! the table names, and makes one entry of the history, or none: the row is a clause of each step, and so is how often it reads and writes a store,
//! which none does under the frames' lock. A step is proved for one space and the pool that are handed in, of whatever legal
//! history: so a machine in one thread and a pager behind locks do the same steps.
//!
//! What takes a step's entry is a `Log`, of which nothing is known but which histories it stands for: whoever keeps the history, or keeps none. So a
//! machine that keeps its history, a pager that threads share, and a run that forgets each call make the same step by the same proof. `Counted` is a
//! log that keeps no entry, and `fly` makes all steps of a flight where no other is in progress.
#![tactic(auto)]

mod counted;
mod flight;
mod flights;
mod log;
mod steps;

pub use counted::Counted;
pub use flight::{Flight, Needs, Phase, Purpose};
pub use flights::fly;
pub use log::Log;
pub use steps::{step_alone, step_both, step_frames};
