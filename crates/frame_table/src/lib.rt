//! Every frame of a machine: a pool, and the frames that pages have beside it. So whoever is outside names frames by their numbers, and holds none.
//!
//! Contracts see it as the frames' state, as they see a pool. Each call tests what it is passed, and has no `requires`. What it may not do it
//! refuses, and says why, by the first cause in `specs/Refusals.antt` that holds; then nothing changes.
#![tactic(auto)]

mod refusal;
mod table;
#[cfg(test)]
mod tests;

pub use refusal::Refusal;
pub use table::{Collected, FrameTable, Given};
