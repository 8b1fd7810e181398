//! Backing stores: what keeps the copies of a space's pages.
//!
//! A `Store` reads, writes and drops the copies of pages, and counts its faults. Contracts see one as the plain record `Stored` of
//! `pager_model`. `MemoryStore` keeps the copies in memory.
#![tactic(auto)]

mod memory;
mod store;

pub use memory::MemoryStore;
pub use store::{Copied, Store, StoreFailed, WriteRefused};
