//! The run.

ghost use Rattle.std.specs.Prelude.{◌≡◌, ℕ, ◌≤◌, [], IfErr, IfOk, IfSome, List, OnErr, OnOk, Option, length, map};
ghost use Rattle.line_source.specs.Lines.{seen};
ghost use Rattle.miss_curves.specs.Curves.{AreLong, stream_capacities};
ghost use Rattle.pager_model.specs.Stored.{Stored};
ghost use Rattle.stream_core.specs.Streaming.{CanStand, IsAfter};
ghost use Rattle.stream_core.specs.Tallies.{has_curves};
ghost use Rattle.trace_lines.specs.Heads.{IsInRange};
ghost use Rattle.trace_stream.specs.Streams.{HasOpening, OpensWith};
ghost use Rattle.stream_run.specs.declared.report.StreamReport.{StreamReport as Asked};
ghost use Rattle.stream_run.specs.declared.run.Ending.TheVariants.{Done, WriteFault};
ghost use Rattle.stream_run.specs.Reports.{Admits, every_in, is_of_curves};
ghost use Rattle.stream_run.specs.Steps.{RanWhole, WritesEnd, end_text, output};
ghost use Rattle.stream_run.specs.Streams.{Course, IsUnrun, RanSome, RunsStream, TellsRead, ports};

use crate::calls::make_calls;
use crate::report::StreamReport;
use io_core::{Sink, Source, WriteFailed};
use line_source::Ahead;
use miss_curves::Curves;
use pager_model::Summary;
use report_text::{write_curves, write_summary};
use std::alloc::Global;
use store_core::Store;
use stream_core::{Finished, Stream};
use trace_reader::TraceFault;
use trace_stream::{Opening, open};

/// How the run of a stream ended.
#[derive(Clone, Copy, Debug, PartialEq, Eq)]
pub enum Ending {
    /// The whole trace was run, and its counts or its curves were written.
    Done,
    /// A line was refused, or a read failed: the calls before it were run.
    Stopped(TraceFault),
    /// A write failed.
    WriteFault,
    /// There was no memory: no call was run.
    NoMemory,
}

/// What the run of a stream leaves.
#[derive(Drop)]
pub struct Streamed<S: Store + Send + Drop> {
    pub ending: Ending,
    /// The stores that were handed in, in their order.
    pub stores: Vec<S>,
}

/// Runs a trace as it is read, each call to its end in the order of the lines, and before each a turn of the daemon while it has turns left. Where it
/// is asked for, the counts so far are written after each so many calls; at the end of the text the daemon makes the turns that it has left, and
/// the counts of the whole run are written, or its curves. Where a line is refused, or a read or a write fails, the calls before it were run.
///
/// All memory is taken before the first call, but for that of the stores' writes, and nothing is kept a call. It takes no handle, and so is proved
/// to return, whatever the source has.
pub fn run_stream<T: Source, K: Sink, S: Store + Send + Drop>(
    alloc: Global,
    source: &mut T,
    sink: &mut K,
    report: StreamReport,
    stores: Vec<S>,
) -> Streamed<S>
    requires some { IfSome (every_in report) (λ n. 1 ≤ n) }
    ensures { RunsStream S.lasts report
        (ports (T.left source.old) (T.faults source.old) (K.taken sink.old) (K.faults sink.old))
        (ports (T.left source.new) (T.faults source.new) (K.taken sink.new) (K.faults sink.new))
        (map S.seen stores.items) (map S.seen result.stores.items) result.ending }
{
    let mut ahead = Ahead::new();
    run_ahead(alloc, &mut ahead, source, sink, report, stores)
}

/// Reads the lines before the calls, and runs the trace. Nothing was read ahead.
fn run_ahead<T: Source, K: Sink, S: Store + Send + Drop>(
    alloc: Global,
    ahead: &mut Ahead,
    source: &mut T,
    sink: &mut K,
    report: StreamReport,
    stores: Vec<S>,
) -> Streamed<S>
    requires none_read { ahead.old ≡ [] }
    requires some { IfSome (every_in report) (λ n. 1 ≤ n) }
    ensures { RunsStream S.lasts report
        (ports (T.left source.old) (T.faults source.old) (K.taken sink.old) (K.faults sink.old))
        (ports (T.left source.new) (T.faults source.new) (K.taken sink.new) (K.faults sink.new))
        (map S.seen stores.items) (map S.seen result.stores.items) result.ending }
{
    let opening = match opening_to_run(alloc, report, ahead, source, stores.len()) {
        Ok(opening) => opening,
        Err(fault) => {
            let ending = Ending::Stopped(fault);
            return Streamed { ending, stores };
        }
    };
    match Stream::create(alloc, &opening.trace, stores, report.is_of_curves()) {
        Ok(stream) => run_calls(&opening, ahead, source, sink, report, stream),
        Err(stores) => Streamed {
            ending: Ending::NoMemory,
            stores,
        },
    }
}

/// Reads the lines before the calls of a trace that is to be run over so many stores, and of which this is to be told.
fn opening_to_run<T: Source>(
    alloc: Global,
    report: StreamReport,
    ahead: &mut Ahead,
    source: &mut T,
    stores: usize,
) -> Result<Opening, TraceFault>
    requires none_read { ahead.old ≡ [] }
    ensures range { IfOk result (λ o. IsInRange o.head) }
    ensures opening { IfOk result (λ o. HasOpening o.head o.trace) }
    ensures admitted { IfOk result (λ o. Admits report o.trace) }
    ensures enough { IfOk result (λ o. o.trace.spaces ≤ stores) }
    ensures reads { IfOk result (λ o. IfSome (T.left source.old)
        (λ bytes. OpensWith bytes o.trace (seen ahead.new (T.left source.new)))) }
    ensures few_ahead { length ahead.new ≤ 4096 }
    ensures unfailed { IfOk result (λ _. T.faults source.new ≡ T.faults source.old) }
    ensures unrun { IfErr result (λ fault. IsUnrun report (T.left source.old) (T.left source.new) stores (Ending.Stopped fault)) }
    ensures told { IfErr result (λ fault. TellsRead (Ending.Stopped fault) (T.faults source.old) (T.faults source.new)) }
{
    let opening = open(alloc, ahead, source)?;
    let processors = opening.trace.processors();
    if report.is_of_curves() && processors != 1 {
        return Err(TraceFault::OneProcessor { processors });
    }
    let (stores, spaces) = (stores as u64, opening.trace.spaces());
    if stores < u64::from(spaces) {
        return Err(TraceFault::TooFewStores { stores, spaces });
    }
    Ok(opening)
}

/// Makes the calls that are to come, and ends the run.
fn run_calls<T: Source, K: Sink, S: Store + Send + Drop>(
    opening: &Opening,
    ahead: &mut Ahead,
    source: &mut T,
    sink: &mut K,
    report: StreamReport,
    stream: Stream<S>,
) -> Streamed<S>
    requires range { IsInRange opening.now.head }
    requires opening { HasOpening opening.now.head opening.now.trace }
    requires some { IfSome (every_in report) (λ n. 1 ≤ n) }
    requires admitted { Admits report opening.now.trace }
    requires asked { has_curves stream.tally ≡ is_of_curves report }
    requires can { (stores : List Stored) × IsAfter opening.now.trace stores [] [] stream }
    ensures { (left : Option (List ℕ)) (stores : List Stored) → IsAfter opening.now.trace stores [] [] stream
        → IfSome left (λ bytes. OpensWith bytes opening.now.trace (seen ahead.old (T.left source.old)))
        → RanSome S.lasts report
        (ports left (T.faults source.old) (K.taken sink.old) (K.faults sink.old))
        (ports (T.left source.new) (T.faults source.new) (K.taken sink.new) (K.faults sink.new))
        stores (map S.seen result.stores.items) result.ending }
{
    let mut stream = stream;
    match make_calls(opening, ahead, source, sink, report.every(), &mut stream) {
        Ending::Done => finish(sink, stream),
        ending => Streamed {
            ending,
            stores: stream.stop(),
        },
    }
}

/// Makes the turns that the daemon has left, and writes what is written at the end of the whole run.
fn finish<K: Sink, S: Store + Send + Drop>(sink: &mut K, stream: Stream<S>) -> Streamed<S>
    requires { CanStand stream }
    ensures { (report : Asked) (course : Course) → has_curves stream.tally ≡ is_of_curves report → Admits report course.script
        → IsAfter course.script course.stores course.calls course.history stream
        → RanWhole S.lasts report course (map S.seen result.stores.items) result.ending
        (output (K.taken sink.old) (K.faults sink.old)) (output (K.taken sink.new) (K.faults sink.new)) }
{
    let Finished {
        summary,
        curves,
        stores,
    } = stream.finish();
    let ending = write_end(sink, &summary, &curves);
    Streamed { ending, stores }
}

/// Writes the curves, where there are some, or else the counts.
fn write_end<K: Sink>(sink: &mut K, summary: &Summary, curves: &Option<Curves>) -> Ending
    requires long { IfSome curves.now (λ c. AreLong stream_capacities c.tiles.items c.pages.items) }
    ensures { WritesEnd (end_text summary.now curves.now) result
        (output (K.taken sink.old) (K.faults sink.old)) (output (K.taken sink.new) (K.faults sink.new)) }
{
    match curves {
        Some(curves) => ending_of(write_curves(sink, &curves.tiles, &curves.pages)),
        None => ending_of(write_summary(sink, summary)),
    }
}

/// How a run ends whose last text was written, or not.
fn ending_of(written: Result<(), WriteFailed>) -> Ending
    ensures done { OnOk written (result ≡ Done) }
    ensures fault { OnErr written (result ≡ WriteFault) }
{
    match written {
        Ok(()) => Ending::Done,
        Err(WriteFailed) => Ending::WriteFault,
    }
}
