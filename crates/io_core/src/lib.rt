//! Bytes in and out, with counts of calls and of faults.
//!
//! A `Source` gives bytes and a `Sink` takes them, a piece at a time. Each counts its faults: a
//! call that fails raises the count by one, and no other does. So whoever passes a failure on can
//! show that it did so at the first, and whoever is done that there was none. And each counts its
//! calls, so whoever says that it makes few can be held to it.
#![tactic(auto)]

mod memory;
mod reading;
mod real;
mod writing;

pub use memory::{MemorySink, MemorySource};
pub use reading::{ReadFailed, Source};
pub use real::{RealSink, RealSource};
pub use writing::{Sink, WriteFailed, write_all};
