//! The pool: every frame that no page has. Contracts see it as the frames' state.
//!
//! A page that needs a frame gets its place in the reservation that has the page, or in a new one: an aligned extent of frames
//! of a preferred size. Where no extent is free, the reservation of a list whose latest page allocation is least recent is broken,
//! which frees an extent of its yield (`pager_laws::laws::breaking_frees_the_yield`). A processor may claim the frame of a page to page it
//! out, and then holds the frame until it uses or drops it.
#![tactic(auto)]

mod free;
mod layout;
mod lists;
mod mapped;
mod pins;
mod pool;
mod records;
mod reserved;

pub use pins::Kept;
pub use pool::{Collected, Counts, Full, NoneLeft, Pool};
