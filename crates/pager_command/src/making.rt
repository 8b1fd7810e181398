//! Traces that are made from a number: written, or run.

ghost use Rattle.std.specs.Prelude.{◌≡◌, ◌≤◌, true, None, IfOk, IfErr, length, map};
ghost use Rattle.flight_core.specs.Lacking.{NoneLacked};
ghost use Rattle.pager_model.specs.Legal.{entries_in};
ghost use Rattle.pager_model.specs.Schedules.{IsSeeded};
ghost use Rattle.pager_core.specs.Replays.{IsReplay, AreItsCounts};
ghost use Rattle.trace_make.specs.Made.{CanMake};
ghost use Rattle.pager_command.specs.MadeRuns.{MakesText, RunsLarge, large_trace};
ghost use Rattle.pager_command.specs.Views.{ending, out_views};

use crate::form::{Making, Report};
use crate::outcome::{Outcome, status_of_write, stopped};
use crate::printing::write_run;
use crate::status::{MEMORY, REFUSED};
use io_core::Sink;
use pager_model::{NoMemory, Trace};
use replay_core::{Gathered, replay_drawn};
use run_history::History;
use std::alloc::Global;
use store_core::Store;
use trace_make::{make, write_trace};
use trace_reader::TraceFault;

/// How many calls the large trace has.
const LARGE_CALLS: u32 = 100_000;

/// How many processors.
const LARGE_PROCESSORS: u32 = 4;

/// How many spaces.
const LARGE_SPACES: u32 = 4;

/// How many frames.
const LARGE_FRAMES: u32 = 8192;

/// Makes a trace and writes its text. It takes no handle, and so is proved to return.
pub fn write_made<K: Sink, S: Store + Send + Drop>(
    alloc: Global,
    making: Making,
    sink: &mut K,
    stores: Vec<S>,
) -> Outcome<S>
    requires { CanMake making.calls making.processors making.spaces making.frames }
    ensures makes { MakesText (out_views K.taken K.faults S.seen) making stores.items (ending sink.old sink.new result) }
    ensures no_verdict { result.verdict ≡ None }
{
    let Making {
        number,
        calls,
        processors,
        spaces,
        frames,
    } = making;
    let Ok(trace) = make(alloc, number, calls, processors, spaces, frames) else {
        return stopped(alloc, MEMORY, None, stores);
    };
    let status = status_of_write(write_trace(sink, &trace));
    Outcome {
        status,
        refusal: None,
        trace: Some(trace),
        history: History::of(Vec::new(alloc)),
        stores,
        verdict: None,
    }
}

/// Makes the large trace from a number, runs it by a schedule that is drawn from a seed, and writes the counts. It takes no handle, and so is
/// proved to return.
pub fn run_large<K: Sink, S: Store + Send + Drop>(
    alloc: Global,
    number: u64,
    seed: u64,
    sink: &mut K,
    stores: Vec<S>,
) -> Outcome<S>
    ensures runs { RunsLarge (out_views K.taken K.faults S.seen) number seed stores.items (ending sink.old sink.new result) }
    ensures lasting { S.lasts ≡ true → NoneLacked (entries_in result.history.items) }
    ensures no_verdict { result.verdict ≡ None }
{
    let count = stores.len() as u64;
    if count < u64::from(LARGE_SPACES) {
        let fault = TraceFault::TooFewStores {
            stores: count,
            spaces: LARGE_SPACES,
        };
        return stopped(alloc, REFUSED, Some(fault), stores);
    }
    match replay_large(alloc, number, seed, stores) {
        Ok((trace, gathered)) => write_run(alloc, sink, Report::Counts, trace, gathered),
        Err(stores) => stopped(alloc, MEMORY, None, stores),
    }
}

/// Makes the large trace and replays it.
fn replay_large<S: Store + Send + Drop>(
    alloc: Global,
    number: u64,
    seed: u64,
    stores: Vec<S>,
) -> Result<(Trace, Gathered<S>), Vec<S>>
    requires enough { LARGE_SPACES ≤ length stores.items }
    ensures trace { IfOk result (λ made. made.0 ≡ large_trace number) }
    ensures stored { IfOk result (λ made. made.0.spaces ≤ length stores.items) }
    ensures run { IfOk result (λ made.
        IsReplay made.0 (map S.seen stores.items) made.1.history.items (map S.seen made.1.stores.items)) }
    ensures lasting { S.lasts ≡ true → IfOk result (λ made. NoneLacked (entries_in made.1.history.items)) }
    ensures seeded { IfOk result (λ made. IsSeeded made.0 seed (entries_in made.1.history.items)) }
    ensures counts { IfOk result (λ made. AreItsCounts made.0 (map S.seen stores.items) made.1.history.items made.1.summary) }
    ensures back { IfErr result (λ back. map S.seen back.items ≡ map S.seen stores.items) }
{
    let Ok(trace) = make_large(alloc, number) else {
        return Err(stores);
    };
    let gathered = replay_drawn(alloc, &trace, stores, seed)?;
    Ok((trace, gathered))
}

/// Makes the large trace.
#[tactic(auto, unfolding(crate::specs::MadeRuns::large_trace))]
fn make_large(alloc: Global, number: u64) -> Result<Trace, NoMemory>
    ensures trace { IfOk result (λ trace. trace ≡ large_trace number) }
    ensures spaces { IfOk result (λ trace. trace.spaces ≡ LARGE_SPACES) }
{
    make(
        alloc,
        number,
        LARGE_CALLS,
        LARGE_PROCESSORS,
        LARGE_SPACES,
        LARGE_FRAMES,
    )
}
