//! How a run ended.

ghost use Rattle.std.specs.Prelude.{◌≡◌, ◌⊎◌, [], None, Some, IsOk, IsErr};
ghost use Rattle.pager_command.specs.Runs.{status_of};

use crate::status::{DONE, MEMORY, READ_FAULT, REFUSED, WRITE_FAULT};
use history_check::Verdict;
use io_core::WriteFailed;
use pager_model::Trace;
use run_history::History;
use std::alloc::Global;
use store_core::Store;
use trace_reader::TraceFault;

/// How a run ended.
#[derive(Drop)]
pub struct Outcome<S: Store + Send + Drop> {
    /// The program's exit status: one of this crate's constants.
    pub status: u8,
    /// Why a trace was refused, where one was: for want of memory only where the reader had none.
    pub refusal: Option<TraceFault>,
    /// The trace, where it was run, or made and written, or a history of it was judged.
    pub trace: Option<Trace>,
    /// The history of its run, or the one that was judged.
    pub history: History,
    /// The stores that were handed in, in their order.
    pub stores: Vec<S>,
    /// What is said of the history, where it was read and judged.
    pub verdict: Option<Verdict>,
}

/// An outcome without a run.
pub fn stopped<S: Store + Send + Drop>(
    alloc: Global,
    status: u8,
    refusal: Option<TraceFault>,
    stores: Vec<S>,
) -> Outcome<S>
    ensures status { result.status ≡ status }
    ensures refusal { result.refusal ≡ refusal }
    ensures trace { result.trace ≡ None }
    ensures history { result.history.items ≡ [] }
    ensures stores { result.stores ≡ stores }
    ensures verdict { result.verdict ≡ None }
{
    Outcome {
        status,
        refusal,
        trace: None,
        history: History::of(Vec::new(alloc)),
        stores,
        verdict: None,
    }
}

/// Why no run is made of what a source has, or no history judged.
#[derive(Drop)]
pub struct Stop {
    pub status: u8,
    pub refusal: Option<TraceFault>,
}

/// The refusal of a text that was not read, or whose trace has too many processors or wants more stores.
pub fn refused(fault: TraceFault) -> Stop
    ensures status { result.status ≡ status_of fault }
    ensures refusal { result.refusal ≡ Some fault }
{
    let status = match fault {
        TraceFault::ReadFault => READ_FAULT,
        TraceFault::NoMemory => MEMORY,
        _ => REFUSED,
    };
    Stop {
        status,
        refusal: Some(fault),
    }
}

/// The status where a text was written, or a write of it failed.
pub fn status_of_write(wrote: Result<(), WriteFailed>) -> u8
    ensures statuses { (result ≡ DONE) ⊎ (result ≡ WRITE_FAULT) }
    ensures done { result ≡ DONE → IsOk wrote }
    ensures failed { result ≡ WRITE_FAULT → IsErr wrote }
{
    match wrote {
        Ok(()) => DONE,
        Err(WriteFailed) => WRITE_FAULT,
    }
}
