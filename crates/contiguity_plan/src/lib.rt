//! Which aligned extent of frames could be emptied by the fewest evictions, and of which pages: what a kernel's compaction would choose.
#![tactic(auto)]

mod cheapest;
mod places;
mod plan;
mod table;

pub use plan::{PageOf, Plan, plan_emptying};
