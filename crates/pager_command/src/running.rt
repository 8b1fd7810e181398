//! A run of the program, from the bytes read to the bytes written.

ghost use Rattle.std.specs.Prelude.{ℕ, ◌≡◌, ◌≢◌, ◌≤◌, ◌⊎◌, ◌↔◌, true, Option, None, IfOk, IfErr, IsSome, IsSomeAnd, length, map};
ghost use Rattle.flight_core.specs.Lacking.{NoneLacked};
ghost use Rattle.io_core.specs.Faults.{Rose};
ghost use Rattle.pager_model.specs.Legal.{entries_in};
ghost use Rattle.pager_core.specs.Replays.{IsReplay, AreItsCounts};
ghost use Rattle.pager_command.specs.declared.form.Form.{Form as Asked};
ghost use Rattle.pager_command.specs.declared.form.Making.{Making as ToMake};
ghost use Rattle.stream_run.specs.declared.report.StreamReport.{StreamReport as Told};
ghost use Rattle.pager_command.specs.Checks.{Checks};
ghost use Rattle.pager_command.specs.Forms.{Admits, AreCheckWords, AreLargeWords, AreMakingWords, AreStreamWords, AreWords, ComesBy, IsCommand};
ghost use Rattle.pager_command.specs.MadeRuns.{MakesText, RunsLarge};
ghost use Rattle.pager_command.specs.Runs.{DidNothing, IsRunnable, IsStatus, IsStopped, IsTold, RunsBy, WasRead};
ghost use Rattle.pager_command.specs.StreamRuns.{Streams};
ghost use Rattle.pager_command.specs.Views.{ending, ends, out_views, views};

use crate::checking::check_history;
use crate::form::{Command, Form, Order, Report, Schedule, command_of};
use crate::making::{run_large, write_made};
use crate::outcome::{Outcome, Stop, refused, stopped};
use crate::printing::write_run;
use crate::status::{DONE, MEMORY, USAGE};
use crate::streaming::stream_text;
use io_core::{Sink, Source};
use pager_model::Trace;
use replay_core::{Gathered, replay, replay_drawn, replay_file_order};
use std::alloc::Global;
use std::sync::Wait;
use std::thread::Threads;
use store_core::Store;
use trace_reader::{TraceFault, read_trace};

/// Runs the program with these words over these backing stores, of which each space uses the one of its number. By words of a form it reads a
/// trace to the end of the source, runs it in the form's order, and writes the form's report to the sink. By words that read nothing it makes a trace from a
/// number and writes its text, or runs the large one and writes the counts. By `check` it reads a trace and a history, and writes whether the history is a
/// legal one of the trace. By `stream` it runs a trace as it is read, a line at a time, and writes the counts or the miss curves.
///
/// The handle is for the order of threads alone, which starts threads and waits for locks: nothing is proved of when such a run returns. A
/// run in one thread is made by a function that takes no handle, and so is proved to return.
pub fn run<T: Source, K: Sink, S: Store + Send + Drop, R: Threads + Wait + Sync>(
    rt: &R,
    alloc: Global,
    words: &[&str],
    source: &mut T,
    sink: &mut K,
    stores: Vec<S>,
) -> Outcome<S>
    ensures statuses { IsStatus result.status }
    ensures told { IsTold result.status result.refusal }

    // By words of no command nothing was done.
    ensures command { IsCommand words.now ↔ (result.status ≢ USAGE) }
    ensures usage { result.status ≡ USAGE → DidNothing (views T.left T.faults K.taken K.faults S.seen)
        (ends source.old sink.old) (ends source.new sink.new) stores.items result }

    // By words of a form no run was made, for a cause that is told; or one was made of the trace that was read, over these stores, and what the
    // form's report prints was written, or a part of it.
    ensures runs { (form : Asked) → AreWords words.now form
        → RunsBy (views T.left T.faults K.taken K.faults S.seen) form.order form.report
        (ends source.old sink.old) (ends source.new sink.new) stores.items result }

    // Words of a form, the text of a trace that its report is for, and stores enough give a run, unless there is no memory or a read or a write
    // fails: by `runs` one that answers every call, and in which no access is refused for frames while one could be had, nor while wired pages and
    // processors are no more than these, and no wire is left undone but for a page whose frame is claimed (`refusals`, `never_short`, `kept` of
    // `IsReplay`).
    ensures complete { (form : Asked) → AreWords words.now form
        → IsSomeAnd (T.left source.old) (IsRunnable form.report (length stores.items))
        → (Rose (T.faults source.old) (T.faults source.new) → ⊥)
        → (Rose (K.faults sink.old) (K.faults sink.new) → ⊥)
        → (result.status ≡ DONE) ⊎ (result.status ≡ MEMORY) }

    // A trace that is made from a number, and not read.
    ensures makes { (m : ToMake) → AreMakingWords words.now m
        → (source.new ≡ source.old)
        × MakesText (out_views K.taken K.faults S.seen) m stores.items (ending sink.old sink.new result) }
    ensures large { (number seed : ℕ) → AreLargeWords words.now number seed
        → (source.new ≡ source.old)
        × RunsLarge (out_views K.taken K.faults S.seen) number seed stores.items (ending sink.old sink.new result) }

    // A history that is read behind its trace, and not made.
    ensures checks { AreCheckWords words.now → Checks (views T.left T.faults K.taken K.faults S.seen)
        (ends source.old sink.old) (ends source.new sink.new) stores.items result }
    ensures verdict { IsSome result.verdict → AreCheckWords words.now }

    // A trace that is run as it is read, and not kept.
    ensures streams { (report : Told) → AreStreamWords words.now report → Streams (views T.left T.faults K.taken K.faults S.seen) S.lasts report
        (ends source.old sink.old) (ends source.new sink.new) stores.items result }

    // Over stores that keep every page of a space for good no call of a run was answered for want of memory.
    ensures lasting { S.lasts ≡ true → (AreCheckWords words.now → ⊥) → NoneLacked (entries_in result.history.items) }
{
    let Some(command) = command_of(words) else {
        return stopped(alloc, USAGE, None, stores);
    };
    match command {
        Command::Run(form) => run_form(rt, alloc, form, source, sink, stores),
        Command::Make(making) => write_made(alloc, making, sink, stores),
        Command::Large { number, seed } => run_large(alloc, number, seed, sink, stores),
        Command::Check => check_history(alloc, source, sink, stores),
        Command::Stream { report } => stream_text(alloc, report, source, sink, stores),
    }
}

/// Reads a trace and runs it in a form.
fn run_form<T: Source, K: Sink, S: Store + Send + Drop, R: Threads + Wait + Sync>(
    rt: &R,
    alloc: Global,
    form: Form,
    source: &mut T,
    sink: &mut K,
    stores: Vec<S>,
) -> Outcome<S>
    ensures runs { RunsBy (views T.left T.faults K.taken K.faults S.seen) form.order form.report
        (ends source.old sink.old) (ends source.new sink.new) stores.items result }
    ensures lasting { S.lasts ≡ true → NoneLacked (entries_in result.history.items) }
    ensures no_verdict { result.verdict ≡ None }
{
    let Form { order, report } = form;
    match order {
        Order::InOneThread(schedule) => run_in_one_thread(
            alloc, schedule, report, source, sink, stores,
        ),
        Order::Threads => run_in_threads(rt, alloc, report, source, sink, stores),
    }
}

/// Reads a trace and runs it by one thread, in the order of a schedule. It takes no handle, and so is proved to return.
fn run_in_one_thread<T: Source, K: Sink, S: Store + Send + Drop>(
    alloc: Global,
    schedule: Schedule,
    report: Report,
    source: &mut T,
    sink: &mut K,
    stores: Vec<S>,
) -> Outcome<S>
    ensures runs { RunsBy (views T.left T.faults K.taken K.faults S.seen) (Order.InOneThread schedule) report
        (ends source.old sink.old) (ends source.new sink.new) stores.items result }
    ensures lasting { S.lasts ≡ true → NoneLacked (entries_in result.history.items) }
    ensures no_verdict { result.verdict ≡ None }
{
    let trace = match trace_to_run(alloc, &report, source, stores.len()) {
        Ok(trace) => trace,
        Err(stop) => return stopped(alloc, stop.status, stop.refusal, stores),
    };
    match replay_scheduled(alloc, schedule, &trace, stores) {
        Ok(gathered) => write_run(alloc, sink, report, trace, gathered),
        Err(stores) => stopped(alloc, MEMORY, None, stores),
    }
}

/// Reads a trace and runs it with a thread for each processor. By its handle it starts threads and may wait for locks: nothing is proved of when
/// it returns.
fn run_in_threads<T: Source, K: Sink, S: Store + Send + Drop, R: Threads + Wait + Sync>(
    rt: &R,
    alloc: Global,
    report: Report,
    source: &mut T,
    sink: &mut K,
    stores: Vec<S>,
) -> Outcome<S>
    ensures runs { RunsBy (views T.left T.faults K.taken K.faults S.seen) Order.Threads report
        (ends source.old sink.old) (ends source.new sink.new) stores.items result }
    ensures lasting { S.lasts ≡ true → NoneLacked (entries_in result.history.items) }
    ensures no_verdict { result.verdict ≡ None }
{
    let trace = match trace_to_run(alloc, &report, source, stores.len()) {
        Ok(trace) => trace,
        Err(stop) => return stopped(alloc, stop.status, stop.refusal, stores),
    };
    match replay(rt, alloc, &trace, stores) {
        Ok(gathered) => write_run(alloc, sink, report, trace, gathered),
        Err(stores) => stopped(alloc, MEMORY, None, stores),
    }
}

/// Reads a trace, to be run with a report over so many stores. Where the report is for one processor alone and the trace has more, it is refused
/// for that; else where there are fewer stores than spaces.
fn trace_to_run<T: Source>(
    alloc: Global,
    report: &Report,
    source: &mut T,
    stores: usize,
) -> Result<Trace, Stop>
    ensures read { IfOk result (λ trace. WasRead trace (T.left source.old) (T.left source.new)) }
    ensures admitted { IfOk result (λ trace. Admits report.now trace) }
    ensures enough { IfOk result (λ trace. trace.spaces ≤ stores) }
    ensures no_fault { IfOk result (λ _. T.faults source.new ≡ T.faults source.old) }
    ensures stopped { IfErr result (λ stop.
        IsStopped report.now (T.left source.old) (T.left source.new) (T.faults source.old) (T.faults source.new) stores
        stop.status stop.refusal) }
{
    let trace = match read_trace(alloc, source) {
        Ok(trace) => trace,
        Err(fault) => return Err(refused(fault)),
    };
    let processors = trace.processors();
    if report.is_for_one_processor() && processors != 1 {
        return Err(refused(TraceFault::OneProcessor { processors }));
    }
    let (stores, spaces) = (stores as u64, trace.spaces());
    if stores < u64::from(spaces) {
        return Err(refused(TraceFault::TooFewStores { stores, spaces }));
    }
    Ok(trace)
}

/// Replays the trace by a schedule.
fn replay_scheduled<S: Store + Send + Drop>(
    alloc: Global,
    schedule: Schedule,
    trace: &Trace,
    stores: Vec<S>,
) -> Result<Gathered<S>, Vec<S>>
    requires enough { trace.now.spaces ≤ length stores.items }
    ensures run { IfOk result (λ g. IsReplay trace.now (map S.seen stores.items) g.history.items (map S.seen g.stores.items)) }
    ensures ordered { IfOk result (λ g. ComesBy (Order.InOneThread schedule) trace.now (entries_in g.history.items)) }
    ensures counts { IfOk result (λ g. AreItsCounts trace.now (map S.seen stores.items) g.history.items g.summary) }
    ensures lasting { S.lasts ≡ true → IfOk result (λ g. NoneLacked (entries_in g.history.items)) }
    ensures back { IfErr result (λ back. map S.seen back.items ≡ map S.seen stores.items) }
{
    match schedule {
        Schedule::Lines => replay_file_order(alloc, trace, stores),
        Schedule::Drawn { seed } => replay_drawn(alloc, trace, stores, seed),
    }
}
