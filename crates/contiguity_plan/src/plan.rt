//! The cheapest extent of a size after a history.

ghost use Rattle.std.specs.Prelude.{◌≤◌, IfOk, IfSome};
ghost use Rattle.pager_model.specs.Legal.{entries_in, frames_at};
ghost use Rattle.pager_model.specs.Settings.{Given};
ghost use Rattle.contiguity_plan.specs.Emptying.{IsOver, IsPlanned, Empties};
ghost use Rattle.pager_model.specs.Bounds.{most_frames};

use crate::table::Table;
use pager_model::{Extent, NoMemory, Size};
use run_history::History;
use std::alloc::Global;

/// A page of a space.
#[derive(Clone, Copy, Debug, PartialEq, Eq)]
pub struct PageOf {
    pub space: u32,
    pub page: u32,
}

/// An extent of frames, and the pages whose frames are its used ones, ascending by frame: each is to be evicted.
#[derive(Debug, Drop)]
pub struct Plan {
    pub extent: Extent,
    pub pages: Vec<PageOf>,
}

/// What is to be evicted to empty an extent of this size, after a history over so many frames: of the extents without a wired, claimed or
/// held frame the one that the fewest evictions empty, the lowest of equal ones, and the pages of its used frames.
pub fn plan_emptying(
    alloc: Global,
    frames: u32,
    history: &History,
    size: Size,
) -> Result<Option<Plan>, NoMemory>
    requires frames { frames ≤ most_frames }
    requires legal { (g : Given) × IsOver frames g (entries_in history.now.items) }
    ensures planned { IfOk result (λ plan. (g : Given) → IsOver frames g (entries_in history.now.items)
        → IsPlanned (frames_at g (entries_in history.now.items)) frames size plan) }
    ensures empties { IfOk result (λ plan. (g : Given) → IsOver frames g (entries_in history.now.items)
        → IfSome plan (Empties (frames_at g (entries_in history.now.items)))) }
{
    let mut table = Table::create(alloc, frames)?;
    table.follow(history)?;
    let planned = table.plan(alloc, frames, size)?;
    Ok(planned)
}
