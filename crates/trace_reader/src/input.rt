//! A trace from a source, which gives its bytes a piece at a time.
ghost use Rattle.std.specs.Prelude.{◌≡◌, ◌+◌, ◌<◌, ◌≤◌, ℕ, [], length, Some, IfSome, IfOk, IfErr, IsErrOf};
ghost use Rattle.io_core.specs.Faults.{one_more};
ghost use Rattle.pager_model.specs.TraceText.{IsTextOf};
ghost use Rattle.trace_reader.specs.Refusals.{IsCause, IsOfReader, refusal_of};

use crate::fault::TraceFault;
use crate::text::{MAX_BYTES, parse};
use io_core::Source;
use pager_model::Trace;
use std::alloc::Global;

/// How many bytes one read asks for.
const PIECE: usize = 65_536;

/// Why the bytes of a source weren't read to their end.
#[derive(Clone, Copy, Debug, PartialEq, Eq)]
pub enum AllFault {
    /// A read failed.
    ReadFault,
    /// There are more bytes than were asked for.
    TooLong,
    /// There isn't enough memory.
    NoMemory,
}

impl From<AllFault> for TraceFault {
    ghost use Rattle.std.specs.Prelude.{◌≡◌};
    ghost use Rattle.trace_reader.specs.Refusals.{trace_fault};

    ghost from_gives = { λ fault refusal. refusal ≡ trace_fault fault };

    fn from(fault: AllFault) -> TraceFault {
        match fault {
            AllFault::ReadFault => TraceFault::ReadFault,
            AllFault::TooLong => TraceFault::TooLong,
            AllFault::NoMemory => TraceFault::NoMemory,
        }
    }
}

/// All that the source has left, where that is at most so many bytes.
///
/// More are refused as soon as they come. Each read gives a byte at least or is the last, and none follows one that failed or that gave
/// a byte too many: so at most `most + 1` reads are made.
pub fn read_within<T: Source>(
    alloc: Global,
    source: &mut T,
    most: usize,
) -> Result<Vec<u8>, AllFault>
    ensures ok { IfOk result (λ text. IfSome (T.left source.old)
        (λ bytes. (bytes ≡ text.items) × (T.left source.new ≡ Some []))) }
    ensures within { IfOk result (λ text. length text.items ≤ most) }
    ensures too_long { IsErrOf result AllFault.TooLong
        → IfSome (T.left source.old) (λ bytes. most < length bytes) }
    ensures fault { IsErrOf result AllFault.ReadFault
        → T.faults source.new ≡ one_more (T.faults source.old) }
    ensures no_other_fault { (IsErrOf result AllFault.ReadFault → ⊥)
        → T.faults source.new ≡ T.faults source.old }
    ensures few_reads { T.reads source.new ≤ T.reads source.old + most + 1 }
{
    let mut text = Vec::new(alloc);
    let mut piece = [0; PIECE];
    'pieces: loop {
        let Ok(n) = source.read(&mut piece) else {
            return Err(AllFault::ReadFault);
        };
        if n == 0 {
            return Ok(text);
        }
        if n > most - text.len() {
            return Err(AllFault::TooLong);
        }
        text.extend_from_slice(&piece[..n])
            .map_err(|_| AllFault::NoMemory)?;
    }
}

/// Reads a trace to the end of its source.
///
/// Each read gives a byte at least or is the last, and none follows one that failed or that gave byte
/// `MAX_BYTES + 1`: so at most `MAX_BYTES + 1` reads are made. Memory is taken as the text and its calls
/// grow. After an `Err` it is open how much of the source was read.
pub fn read_trace<T: Source>(alloc: Global, source: &mut T) -> Result<Trace, TraceFault>
    // Where the source tells its bytes: they are this trace's text, and all of them were read.
    ensures ok { IfOk result (λ trace. IfSome (T.left source.old)
        (λ bytes. IsTextOf bytes trace × (T.left source.new ≡ Some []))) }
    // A refusal is that of the bytes.
    ensures refused { IfErr result
        (λ fault. IfSome (T.left source.old) (λ bytes. IsCause (refusal_of bytes) fault)) }
    ensures fault { IsErrOf result TraceFault.ReadFault
        → T.faults source.new ≡ one_more (T.faults source.old) }
    ensures no_other_fault { (IsErrOf result TraceFault.ReadFault → ⊥)
        → T.faults source.new ≡ T.faults source.old }
    ensures own_fault { IfErr result IsOfReader }
    ensures few_reads { T.reads source.new ≤ T.reads source.old + 16777217 }
{
    let text = read_within(alloc, source, MAX_BYTES)?;
    parse(alloc, &text)
}
