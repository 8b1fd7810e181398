//! How many accesses of a history would miss with images of each capacity, from one row of places for each space and kind of tiles.
#![tactic(auto)]

mod counting;
mod entries;
mod history;
mod stacks;

pub use counting::MissCurves;
pub use history::curves;
pub use lru_stack::Use;
pub use stacks::{Curves, HISTORY_CAPACITIES, STREAM_CAPACITIES, Stacks};
