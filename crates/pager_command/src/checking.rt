//! A history that is read behind its trace, and judged.

ghost use Rattle.std.specs.Prelude.{◌≡◌, None, Some};
ghost use Rattle.pager_command.specs.Checks.{Checks, bad_in};
ghost use Rattle.pager_command.specs.Views.{ends, views};

use crate::outcome::{Outcome, refused, status_of_write, stopped};
use crate::status::MEMORY;
use history_check::{Verdict, check, read_texts};
use io_core::{Sink, Source};
use report_text::write_verdict;
use run_history::History;
use std::alloc::Global;
use store_core::Store;

/// Reads a trace and a history, judges the history, and writes the verdict. The stores aren't used. It takes no handle, and so is proved to return.
pub fn check_history<T: Source, K: Sink, S: Store + Send + Drop>(
    alloc: Global,
    source: &mut T,
    sink: &mut K,
    stores: Vec<S>,
) -> Outcome<S>
    ensures { Checks (views T.left T.faults K.taken K.faults S.seen)
        (ends source.old sink.old) (ends source.new sink.new) stores.items result }
{
    let (trace, history) = match read_texts(alloc, source) {
        Ok(texts) => texts,
        Err(fault) => {
            let stop = refused(fault);
            return stopped(alloc, stop.status, stop.refusal, stores);
        }
    };
    let Ok(verdict) = check(alloc, &trace, history.as_slice()) else {
        return stopped(alloc, MEMORY, None, stores);
    };
    let status = status_of_write(write_verdict(sink, bad_entry(verdict)));
    Outcome {
        status,
        refusal: None,
        trace: Some(trace),
        history: History::of(history),
        stores,
        verdict: Some(verdict),
    }
}

/// The entry that a verdict names.
fn bad_entry(verdict: Verdict) -> Option<u64>
    ensures { result ≡ bad_in verdict }
{
    match verdict {
        Verdict::Yes => None,
        Verdict::No { entry } => Some(entry),
    }
}
