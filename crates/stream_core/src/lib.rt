//! A run by the order of the lines, call by call, of which nothing is kept but its counts.
//!
//! A `Stream` makes each call to its end, and before it a turn of the daemon while it has turns left, as a run by the order of the lines does.
//! Nowhere in memory is there a history. Its contract says all the same that there is one: whichever legal history the stream stood for, it stands
//! for one that is longer by the sequence of the call. So what it counts are that history's counts, and it needs no memory a call.
#![tactic(auto)]

mod stream;
mod tally;

pub use stream::{Finished, Stream};
