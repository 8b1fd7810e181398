//! The machine that runs the calls of many processors, and a daemon's turns, on many spaces.
//!
//! The machine keeps its history legal in every order of steps. What a run begins with and what it leaves is the same whoever makes its entries.
#![tactic(auto)]

mod jobs;
mod listed;
mod machine;
mod run_parts;

pub use machine::{Advance, ENTRIES_OF_CALL, Machine};
pub use run_parts::{
    Gathered, RunRoom, SpaceRooms, counts_of, jobs_by_processor, marks_of, stores_of,
};
