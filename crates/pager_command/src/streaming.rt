//! A trace that is run as it is read.

ghost use Rattle.std.specs.Prelude.{◌≡◌, ◌≤◌, [], IfSome, None};
ghost use Rattle.pager_command.specs.StreamRuns.{Streams, refusal_of_ending, status_of_ending};
ghost use Rattle.pager_command.specs.Views.{ends, views};
ghost use Rattle.stream_run.specs.Reports.{every_in};

use crate::outcome::{Outcome, Stop, refused, stopped};
use crate::status::{DONE, MEMORY, WRITE_FAULT};
use io_core::{Sink, Source};
use std::alloc::Global;
use store_core::Store;
use stream_run::{Ending, StreamReport, Streamed, run_stream};

/// Runs a trace as it is read and writes what is asked for of it: the counts, and before them those so far after each so many calls, or the miss
/// curves. It takes no handle, and so is proved to return.
pub fn stream_text<T: Source, K: Sink, S: Store + Send + Drop>(
    alloc: Global,
    report: StreamReport,
    source: &mut T,
    sink: &mut K,
    stores: Vec<S>,
) -> Outcome<S>
    requires some { IfSome (every_in report) (λ n. 1 ≤ n) }
    ensures streams { Streams (views T.left T.faults K.taken K.faults S.seen) S.lasts report
        (ends source.old sink.old) (ends source.new sink.new) stores.items result }
    ensures no_history { result.history.items ≡ [] }
    ensures no_verdict { result.verdict ≡ None }
{
    let Streamed { ending, stores } = run_stream(alloc, source, sink, report, stores);
    let Stop { status, refusal } = stop_of(ending);
    stopped(alloc, status, refusal, stores)
}

/// The status of an ending, and the refusal that it tells.
fn stop_of(ending: Ending) -> Stop
    ensures status { result.status ≡ status_of_ending ending }
    ensures refusal { result.refusal ≡ refusal_of_ending ending }
{
    let status = match ending {
        Ending::Done => DONE,
        Ending::Stopped(fault) => return refused(fault),
        Ending::WriteFault => WRITE_FAULT,
        Ending::NoMemory => MEMORY,
    };
    Stop {
        status,
        refusal: None,
    }
}
