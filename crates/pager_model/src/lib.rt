//! The words that every other crate of the pager speaks: its types in `src/`, its definitions in `specs/`.
//!
//! The types are plain data: sizes, extents, regions, calls and their replies, the entries of a history, a trace,
//! and the frames, which move and are never copied. The definitions say in the field's words what a pager may do:
//! the flat memory that each answer is measured by, the frames' state, and which histories are legal.
#![tactic(auto)]

mod address;
pub mod bounds;
pub mod call;
pub mod chunks;
pub mod entry;
pub mod extent;
pub mod frame;
mod generator;
pub mod laws;
mod optional_index;
pub mod page_range;
pub mod region;
pub mod reply;
pub mod reservation;
pub mod setting;
pub mod size;
mod sizes;
pub mod steps;
pub mod summary;
pub mod tile;
pub mod trace;

pub use address::{PAGE_BYTES, WORD_BYTES, page_of, word_of};
pub use bounds::{MOST_ACTORS, MOST_CALLS, MOST_FRAMES, MOST_PROCESSORS, MOST_SPACES};
pub use call::{Call, Line};
pub use entry::{Entry, Need, Numbered, Victim, Want, What};
pub use extent::{Extent, LARGEST, PAGES};
pub use frame::{Frame, NoMemory, WORDS, frames_of};
pub use generator::Generator;
pub use optional_index::OptionalIndex;
pub use page_range::PageRange;
pub use region::{Kind, Region, Rights};
pub use reply::{Answered, Reply};
pub use reservation::{Reservation, Used};
pub use setting::Setting;
pub use size::Size;
pub use sizes::Sizes;
pub use steps::Steps;
pub use summary::Summary;
pub use tile::{Mapping, Tile};
pub use trace::{Daemon, Job, Trace};
