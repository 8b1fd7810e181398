//! What is printed of a run that was made.

ghost use Rattle.std.specs.Prelude.{ℕ, ◌≡◌, ◌≢◌, ◌≤◌, ◌⊎◌, List, Option, None, Some};
ghost use Rattle.contiguity_plan.specs.declared.plan.Plan.{Plan as Emptying};
ghost use Rattle.contiguity_plan.specs.Emptying.{IsOver, IsPlanned};
ghost use Rattle.io_core.specs.Faults.{one_more};
ghost use Rattle.miss_curves.specs.Curves.{AreCurves, history_capacities};
ghost use Rattle.miss_curves.specs.Histories.{IsRunOf};
ghost use Rattle.pager_model.specs.Legal.{entries_in, frames_at};
ghost use Rattle.pager_model.specs.PrintedText.{out_text, summary_text};
ghost use Rattle.pager_model.specs.Settings.{Given};
ghost use Rattle.pager_model.specs.Stored.{Stored};
ghost use Rattle.report_text.specs.CurveText.{curves_text};
ghost use Rattle.report_text.specs.Parts.{has_history};
ghost use Rattle.report_text.specs.PlanText.{plan_text};
ghost use Rattle.report_text.specs.Written.{WroteAll, WrotePart};
ghost use Rattle.pager_command.specs.Forms.{Admits};
ghost use Rattle.pager_command.specs.Runs.{EndsRun, WasRun};
ghost use Rattle.pager_command.specs.Views.{replayed};
ghost use Rattle.pager_model.specs.Bounds.{most_frames};

use crate::form::Report;
use crate::outcome::{Outcome, status_of_write};
use crate::status::{DONE, MEMORY, WRITE_FAULT};
use contiguity_plan::plan_emptying;
use io_core::Sink;
use miss_curves::curves;
use pager_model::{NoMemory, Size, Summary, Trace};
use replay_core::Gathered;
use report_text::{Parts, write_curves, write_plan, write_report, write_summary};
use run_history::History;
use std::alloc::Global;
use store_core::Store;

/// Writes what is printed of a run.
pub fn write_run<K: Sink, S: Store + Send + Drop>(
    alloc: Global,
    sink: &mut K,
    report: Report,
    trace: Trace,
    gathered: Gathered<S>,
) -> Outcome<S>
    requires admitted { Admits report trace }
    requires run { (stores : List Stored) × WasRun (replayed trace stores gathered.history.items) gathered.summary }
    ensures refusal { result.refusal ≡ None }
    ensures trace { result.trace ≡ Some trace }
    ensures history { result.history ≡ gathered.history }
    ensures stores { result.stores ≡ gathered.stores }
    ensures no_verdict { result.verdict ≡ None }
    ensures ends { (stores : List Stored) → WasRun (replayed trace stores gathered.history.items) gathered.summary
        → EndsRun K.taken K.faults sink.old sink.new report (replayed trace stores gathered.history.items) result.status }
{
    let Gathered {
        history,
        stores,
        summary,
    } = gathered;
    let status = write_reported(alloc, sink, report, &trace, &history, &summary);
    Outcome {
        status,
        refusal: None,
        trace: Some(trace),
        history,
        stores,
        verdict: None,
    }
}

/// Writes what a report prints of a run with these counts, and answers the status.
fn write_reported<K: Sink>(
    alloc: Global,
    sink: &mut K,
    report: Report,
    trace: &Trace,
    history: &History,
    summary: &Summary,
) -> u8
    requires admitted { Admits report trace.now }
    requires run { (stores : List Stored) × WasRun (replayed trace.now stores history.now.items) summary.now }
    ensures { (stores : List Stored) → WasRun (replayed trace.now stores history.now.items) summary.now
        → EndsRun K.taken K.faults sink.old sink.new report (replayed trace.now stores history.now.items) result }
{
    match report {
        Report::Answers { parts } => write_answers(
            sink,
            trace.processors(),
            history,
            summary,
            parts,
        ),
        Report::Counts => write_counts(sink, summary),
        Report::Plan { size } => write_planned(alloc, sink, trace.frames(), history, size),
        Report::Curves => write_curves_of(alloc, sink, trace, history),
    }
}

/// Writes the answers of so many processors, the history where the parts have it and the counts, and answers the status.
fn write_answers<K: Sink>(
    sink: &mut K,
    processors: u32,
    history: &History,
    summary: &Summary,
    parts: Parts,
) -> u8
    ensures statuses { (result ≡ DONE) ⊎ (result ≡ WRITE_FAULT) }
    ensures wrote { result ≡ DONE
        → WroteAll (out_text (has_history parts) processors history.now.items summary.now) (K.taken sink.old) (K.taken sink.new) }
    ensures part { result ≡ WRITE_FAULT
        → WrotePart (out_text (has_history parts) processors history.now.items summary.now) (K.taken sink.old) (K.taken sink.new) }
    ensures write_fault { result ≡ WRITE_FAULT → K.faults sink.new ≡ one_more (K.faults sink.old) }
    ensures no_write_fault { result ≢ WRITE_FAULT → K.faults sink.new ≡ K.faults sink.old }
{
    status_of_write(write_report(sink, processors, history, summary, parts))
}

/// Writes the counts of a run, and answers the status.
fn write_counts<K: Sink>(sink: &mut K, summary: &Summary) -> u8
    ensures statuses { (result ≡ DONE) ⊎ (result ≡ WRITE_FAULT) }
    ensures wrote { result ≡ DONE → WroteAll (summary_text summary.now) (K.taken sink.old) (K.taken sink.new) }
    ensures part { result ≡ WRITE_FAULT → WrotePart (summary_text summary.now) (K.taken sink.old) (K.taken sink.new) }
    ensures write_fault { result ≡ WRITE_FAULT → K.faults sink.new ≡ one_more (K.faults sink.old) }
    ensures no_write_fault { result ≢ WRITE_FAULT → K.faults sink.new ≡ K.faults sink.old }
{
    status_of_write(write_summary(sink, summary))
}

/// Plans which extent of a size to empty after a history over so many frames, writes that, and answers the status.
fn write_planned<K: Sink>(
    alloc: Global,
    sink: &mut K,
    frames: u32,
    history: &History,
    size: Size,
) -> u8
    requires frames { frames ≤ most_frames }
    requires legal { (g : Given) × IsOver frames g (entries_in history.now.items) }
    ensures statuses { (result ≡ DONE) ⊎ ((result ≡ WRITE_FAULT) ⊎ (result ≡ MEMORY)) }
    ensures unwritten { result ≡ MEMORY → sink.new ≡ sink.old }
    ensures wrote { result ≡ DONE → (g : Given) → IsOver frames g (entries_in history.now.items)
        → (planned : Option Emptying) × IsPlanned (frames_at g (entries_in history.now.items)) frames size planned
        × WroteAll (plan_text planned) (K.taken sink.old) (K.taken sink.new) }
    ensures part { result ≡ WRITE_FAULT → (g : Given) → IsOver frames g (entries_in history.now.items)
        → (planned : Option Emptying) × IsPlanned (frames_at g (entries_in history.now.items)) frames size planned
        × WrotePart (plan_text planned) (K.taken sink.old) (K.taken sink.new) }
    ensures write_fault { result ≡ WRITE_FAULT → K.faults sink.new ≡ one_more (K.faults sink.old) }
    ensures no_write_fault { result ≢ WRITE_FAULT → K.faults sink.new ≡ K.faults sink.old }
{
    match plan_emptying(alloc, frames, history, size) {
        Ok(planned) => status_of_write(write_plan(sink, &planned)),
        Err(NoMemory) => MEMORY,
    }
}

/// Counts the misses of a history at each capacity, writes the curves of them, and answers the status.
fn write_curves_of<K: Sink>(alloc: Global, sink: &mut K, trace: &Trace, history: &History) -> u8
    requires one { trace.now.processors ≡ 1 }
    requires run { (g : Given) × IsRunOf trace.now g (entries_in history.now.items) }
    ensures statuses { (result ≡ DONE) ⊎ ((result ≡ WRITE_FAULT) ⊎ (result ≡ MEMORY)) }
    ensures unwritten { result ≡ MEMORY → sink.new ≡ sink.old }
    ensures wrote { result ≡ DONE → (g : Given) → IsRunOf trace.now g (entries_in history.now.items)
        → (tiles : List ℕ) × (pages : List ℕ) × AreCurves history_capacities g (entries_in history.now.items) tiles pages
        × WroteAll (curves_text tiles pages) (K.taken sink.old) (K.taken sink.new) }
    ensures part { result ≡ WRITE_FAULT → (g : Given) → IsRunOf trace.now g (entries_in history.now.items)
        → (tiles : List ℕ) × (pages : List ℕ) × AreCurves history_capacities g (entries_in history.now.items) tiles pages
        × WrotePart (curves_text tiles pages) (K.taken sink.old) (K.taken sink.new) }
    ensures write_fault { result ≡ WRITE_FAULT → K.faults sink.new ≡ one_more (K.faults sink.old) }
    ensures no_write_fault { result ≢ WRITE_FAULT → K.faults sink.new ≡ K.faults sink.old }
{
    match curves(alloc, trace, history) {
        Ok(counted) => {
            let wrote = write_curves(sink, counted.tiles.as_slice(), counted.pages.as_slice());
            status_of_write(wrote)
        }
        Err(NoMemory) => MEMORY,
    }
}
