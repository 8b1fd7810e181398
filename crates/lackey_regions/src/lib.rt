//! The calls of a trace that a program's accesses and system calls become.
//!
//! **Accesses.** An instruction or a load becomes a load of the 8-byte word that its first byte lies in, a store a store of it, and a change a load and then a
//! store. An access that goes on in the next page of 8 KiB is one of that page's first word too. A store stores the number of its own call in the trace,
//! counted from 1.
//!
//! **Pages.** `lackey_layout` says where a page of the program is in the space of the trace.
//!
//! **Regions.** What the program maps (`mmap`, and `brk` above where the heap ended) becomes growing regions, a part of it for each run of pages that lie side
//! by side in the space. Pages that no region has yet go to the region that ends where they begin, which grows, if it has the same rights, and else become a
//! region of their own. Pages that a region has already get the new rights. So do those of `mprotect`, where a region has them. A page of which the program
//! maps or protects one half of 4 KiB gets the wider of its old and its new rights.
//!
//! `munmap` unmaps each region that lies in its range as a whole, and discards what other regions have of its whole pages; `madvise` with `MADV_DONTNEED`
//! discards the latter. `mremap` unmaps what it moves and maps it elsewhere, with the right to write.
//!
//! A page that is accessed and that no region has, as one of the stack or of the program's own file, is mapped with the right to write, and with it those of
//! the aligned 64 pages round it between it and the next regions. A page that is accessed with more rights than it has gets the right to write before.
//!
//! A space has 64 regions at most. Where there are so many, pages that would become another go to the nearest region below, which grows over the gap; where
//! there is none below, that is a refusal.
#![tactic(auto)]

mod added;
mod memory;
mod refusal;
mod region;
mod regions;

pub use memory::Memory;
pub use refusal::Refusal;
