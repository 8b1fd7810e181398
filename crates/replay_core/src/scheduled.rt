//! A schedule that is listed.

ghost use Rattle.std.specs.Prelude.{◌≡◌, ◌<◌, ◌≤◌, IfOk, IfErr, length, map, true};
ghost use Rattle.std.specs.List.{All, range_with_len};
ghost use Rattle.pager_model.specs.Bounds.{most_actors};
ghost use Rattle.pager_model.specs.Legal.{entries_in};
ghost use Rattle.pager_model.specs.Showing.{actors};
ghost use Rattle.pager_model.specs.Schedules.{IsScheduled};
ghost use Rattle.flight_core.specs.Lacking.{NoneLacked};
ghost use Rattle.pager_core.specs.Replays.{IsReplay, AreItsCounts};

use crate::stepping::step_first;
use arrayvec::ArrayVec;
use pager_core::{Gathered, Machine};
use pager_model::{MOST_ACTORS, Trace};
use std::alloc::Global;
use store_core::Store;

/// Runs a trace by a list of its processors, of which those that can't step are passed over, and then by the lowest
/// processor that can. There are at least as many stores as spaces, and they come back for want of memory, which comes before the first
/// entry alone.
pub fn replay_schedule<S: Store + Send + Drop>(
    alloc: Global,
    trace: &Trace,
    stores: Vec<S>,
    schedule: &[u32],
) -> Result<Gathered<S>, Vec<S>>
    requires enough { trace.now.spaces ≤ length stores.items }
    requires known { All (λ c. c < actors trace.now) schedule.now }
    ensures run { IfOk result (λ g. IsReplay trace.now (map S.seen stores.items) g.history.items (map S.seen g.stores.items)) }
    ensures scheduled { IfOk result (λ g. IsScheduled trace.now schedule.now (entries_in g.history.items)) }
    ensures counts { IfOk result (λ g. AreItsCounts trace.now (map S.seen stores.items) g.history.items g.summary) }
    ensures lasting { S.lasts ≡ true → IfOk result (λ g. NoneLacked (entries_in g.history.items)) }
    ensures back { IfErr result (λ back. map S.seen back.items ≡ map S.seen stores.items) }
{
    let mut machine = Machine::create(alloc, trace, stores)?;
    for actor in schedule {
        machine.advance(*actor);
    }
    let actors = all_below(trace.actors());
    while !machine.ended() {
        step_first(&mut machine, actors.as_slice());
    }
    Ok(machine.finish())
}

/// The numbers below this one.
fn all_below(count: u32) -> ArrayVec<u32, MOST_ACTORS>
    requires { count ≤ most_actors }
    ensures { result.items ≡ range_with_len 0 count }
{
    let mut actors = ArrayVec::new();
    for actor in 0..count {
        actors.push(actor);
    }
    actors
}
