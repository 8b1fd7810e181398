//! A pager to which calls come one at a time: it answers each before the next.
//!
//! A `LivePager` is a run of which no trace is known before: whoever has it hands a call in, and gets its answer, the frame of the page that was
//! loaded or stored, and what the call did. It is a stream with what a caller needs of each call beside it, and keeps no history either; its contract
//! says that there is one all the same, legal, which grows by the call's sequence, and that the answer is the one in it.
#![tactic(auto)]

mod pager;
mod told;

pub use pager::LivePager;
pub use told::Told;
