//! A backing store over a file of a folder.
//!
//! Which pages have a copy of their own is known here, and how many bytes the file said it took and gave, and where. So a write that answers
//! `Ok` had its whole page taken, a read that answers `Ok` had it given, and a page without a copy of its own is zero. What a file keeps of
//! what it took, and what it gives back, is trusted: no clause tells it.
#![tactic(auto)]

mod file_store;
mod page_bytes;
mod page_file;
mod page_set;

pub use file_store::FileStore;
