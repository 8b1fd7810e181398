//! The regions of a space, the rights of its pages and its resident pages with their tiles, as the entries of a history lead to them.
//!
//! Words, copies and frames' words are not kept: so a history of many accesses is followed at the cost of a few looks for each, and where an
//! entry changes no page, at none.
#![tactic(auto)]

mod changed;
pub mod laws;
mod reply;
mod space;

pub use changed::Changed;
pub use space::FollowedSpace;
