//! Swap slots: a backing store over a block device of few slots.
//!
//! `Blocks` is the device: it reads and writes the words of a slot, and counts its reads, its writes and its faults. `SlotStore` keeps the copies
//! of a space's pages in the slots of one, each of which it uses. A page has a slot from the first write of its copy on; a page whose write
//! failed is lost until it is written again or dropped.
#![tactic(auto)]

mod blocks;
mod memory;
mod store;
mod table;

pub use blocks::{BlockFailed, Blocks};
pub use memory::MemoryBlocks;
pub use store::{PutRefused, SlotStore};
pub use table::PageCopy;
