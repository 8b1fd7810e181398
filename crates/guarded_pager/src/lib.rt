//! A pager to which calls come one at a time, from one that is not proved: each call tests what it is passed.
//!
//! A `GuardedPager` is a live pager whose spaces have stores in memory. None of its calls requires anything: a number that is out of its bounds is
//! refused, and then nothing is done.
#![tactic(auto)]

mod pager;
mod refusal;

pub use pager::GuardedPager;
pub use refusal::Refusal;
