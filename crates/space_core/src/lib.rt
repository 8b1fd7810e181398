//! A space: its regions, the rights and frames of its pages, and its calls, each of which is an answer of flat memory.
#![tactic(auto)]

mod access;
mod frames;
mod places;
mod room;
mod space;
mod table;

pub use room::SpaceRoom;
pub use space::{Begun, OutFault, Space};
