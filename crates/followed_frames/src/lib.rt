//! The frames as the entries of a history lead to them, and which entries they allow.
//!
//! A pool makes each entry anew, so what a taking or a claim gives is compared with what the entry says. The frames that pages have lie in a
//! table here; nothing is written to them, and so they touch no memory.
#![tactic(auto)]

mod frames;
pub mod laws;

pub use frames::FollowedFrames;
