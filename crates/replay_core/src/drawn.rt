//! A schedule that is drawn from a seed.

ghost use Rattle.std.specs.Prelude.{◌≡◌, ◌≤◌, IfOk, IfErr, length, map, true};
ghost use Rattle.pager_model.specs.Bounds.{most_actors};
ghost use Rattle.pager_model.specs.Legal.{entries_in};
ghost use Rattle.flight_core.specs.Lacking.{NoneLacked};
ghost use Rattle.pager_core.specs.Running.{HasEnded, IsLawful};
ghost use Rattle.pager_model.specs.Schedules.{IsSeeded, next_state};
ghost use Rattle.pager_core.specs.Replays.{IsReplay, AreItsCounts};
ghost use Rattle.replay_core.specs.Schedules.{flying_in, drawn_order, FirstStepped};

use crate::stepping::step_first;
use arrayvec::ArrayVec;
use pager_core::{Gathered, Machine};
use pager_model::{Generator, MOST_ACTORS, Trace};
use std::alloc::Global;
use store_core::Store;

/// Runs a trace by a schedule that is drawn from the seed: before each entry one of the processors that have a call or a turn left is
/// drawn, and the entry is of the first in cyclic order from there that needn't wait. There are at least as many stores as spaces, and they come back for
/// want of memory, which comes before the first entry alone.
pub fn replay_drawn<S: Store + Send + Drop>(
    alloc: Global,
    trace: &Trace,
    stores: Vec<S>,
    seed: u64,
) -> Result<Gathered<S>, Vec<S>>
    requires enough { trace.now.spaces ≤ length stores.items }
    ensures run { IfOk result (λ g. IsReplay trace.now (map S.seen stores.items) g.history.items (map S.seen g.stores.items)) }
    ensures seeded { IfOk result (λ g. IsSeeded trace.now seed (entries_in g.history.items)) }
    ensures counts { IfOk result (λ g. AreItsCounts trace.now (map S.seen stores.items) g.history.items g.summary) }
    ensures lasting { S.lasts ≡ true → IfOk result (λ g. NoneLacked (entries_in g.history.items)) }
    ensures back { IfErr result (λ back. map S.seen back.items ≡ map S.seen stores.items) }
{
    let mut machine = Machine::create(alloc, trace, stores)?;
    let mut generator = Generator::of(seed);
    let actors = trace.actors();
    while !machine.ended() {
        step_drawn(&mut machine, actors, &mut generator);
    }
    Ok(machine.finish())
}

/// Makes one entry, of the first processor that can step from a drawn one on.
fn step_drawn<S: Store + Send + Drop>(
    machine: &mut Machine<'_, S>,
    actors: u32,
    generator: &mut Generator,
)
    requires all { length machine.old.jobs ≡ actors }
    requires few { actors ≤ most_actors }
    requires lawful { IsLawful machine.old }
    requires going { HasEnded machine.old → ⊥ }
    ensures stepped { FirstStepped machine.old machine.new (drawn_order machine.old generator.old) }
    ensures state { generator.new ≡ next_state generator.old }
{
    let mut left = left_in(machine, actors);
    let place = generator.draw(left.len() as u32);
    left.as_mut_slice().rotate_left(place as usize);
    step_first(machine, left.as_slice());
}

/// The processors that have a call or a turn left, ascending.
fn left_in<S: Store + Send + Drop>(
    machine: &Machine<'_, S>,
    actors: u32,
) -> ArrayVec<u32, MOST_ACTORS>
    requires all { length machine.now.jobs ≡ actors }
    requires few { actors ≤ most_actors }
    ensures { result.items ≡ flying_in machine.now }
{
    let mut left = ArrayVec::new();
    for actor in 0..actors {
        if machine.has_left(actor) {
            left.push(actor);
        }
    }
    left
}
