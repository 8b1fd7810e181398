//! Where each processor is in its order, as the entries of a history lead to it.
//!
//! The order of a processor's entries is a machine of few places: an entry leads from one place to the next, or breaks the order.
#![tactic(auto)]

mod answers;
mod doing;
mod progress;

pub use doing::{Access, Doing, Purpose};
pub use progress::Progress;
