//! The order of the lines.

ghost use Rattle.std.specs.Prelude.{◌≡◌, ◌≢◌, ◌<◌, ◌≤◌, IfOk, IfErr, None, length, map, true};
ghost use Rattle.pager_model.specs.Legal.{entries_in};
ghost use Rattle.pager_model.specs.Showing.{IsFiled};
ghost use Rattle.flight_core.specs.Lacking.{NoneLacked};
ghost use Rattle.pager_core.specs.Running.{flight_at, progress_of_actor, IsLawful};
ghost use Rattle.pager_core.specs.Replays.{IsReplay, AreItsCounts};
ghost use Rattle.replay_core.specs.DoneJobs.{NoneKeeps, IsBetween, DidJob, DidNext, DidRest};

use pager_core::{Gathered, Machine};
use pager_model::Trace;
use std::alloc::Global;
use store_core::Store;

/// Runs a trace: each call to its end, in the order of the lines, and before each line one turn of the daemon, while it has turns left; those
/// that are left after the last line come then. There are at least as many stores as spaces, and they come back for want of memory, which comes
/// before the first entry alone.
pub fn replay_file_order<S: Store + Send + Drop>(
    alloc: Global,
    trace: &Trace,
    stores: Vec<S>,
) -> Result<Gathered<S>, Vec<S>>
    requires enough { trace.now.spaces ≤ length stores.items }
    ensures run { IfOk result (λ g. IsReplay trace.now (map S.seen stores.items) g.history.items (map S.seen g.stores.items)) }
    ensures filed { IfOk result (λ g. IsFiled trace.now (entries_in g.history.items)) }
    ensures counts { IfOk result (λ g. AreItsCounts trace.now (map S.seen stores.items) g.history.items g.summary) }
    ensures lasting { S.lasts ≡ true → IfOk result (λ g. NoneLacked (entries_in g.history.items)) }
    ensures back { IfErr result (λ back. map S.seen back.items ≡ map S.seen stores.items) }
{
    let mut machine = Machine::create(alloc, trace, stores)?;
    // The daemon is the processor behind those of the calls.
    let daemon = trace.processors();
    for line in trace.calls() {
        do_next(&mut machine, daemon);
        do_job(&mut machine, line.processor);
    }
    do_rest(&mut machine, daemon);
    Ok(machine.finish())
}

/// Does the actor's next job to its end, where it has one left.
fn do_next<S: Store + Send + Drop>(machine: &mut Machine<'_, S>, actor: u32)
    requires lawful { IsLawful machine.old }
    requires between { IsBetween machine.old actor }
    requires none_keeps { NoneKeeps machine.old.flights }
    ensures { DidNext machine.old machine.new actor }
{
    if machine.has_left(actor) {
        do_job(machine, actor);
    }
}

/// Does all jobs that the actor has left, one after another.
fn do_rest<S: Store + Send + Drop>(machine: &mut Machine<'_, S>, actor: u32)
    requires lawful { IsLawful machine.old }
    requires between { IsBetween machine.old actor }
    requires none_keeps { NoneKeeps machine.old.flights }
    ensures { DidRest machine.old machine.new actor }
{
    while machine.has_left(actor) {
        do_job(machine, actor);
    }
}

/// Does the actor's next job to its end.
fn do_job<S: Store + Send + Drop>(machine: &mut Machine<'_, S>, actor: u32)
    requires lawful { IsLawful machine.old }
    requires left { flight_at machine.old.flights actor ≢ None }
    requires between { IsBetween machine.old actor }
    requires none_keeps { NoneKeeps machine.old.flights }
    ensures { DidJob machine.old machine.new actor (progress_of_actor machine.old actor).made }
{
    let number = machine.done(actor);
    while machine.done(actor) == number {
        machine.advance(actor);
    }
}
