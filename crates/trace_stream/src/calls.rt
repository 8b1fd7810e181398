//! The lines of calls.
ghost use Rattle.std.specs.Prelude.{◌≡◌, ◌+◌, ◌<◌, ◌≤◌, IfErr, IfOk, IfSome, IsErrOf, length};
ghost use Rattle.io_core.specs.Faults.{one_more};
ghost use Rattle.line_source.specs.Lines.{seen};
ghost use Rattle.pager_model.specs.TraceText.{IsLine};
ghost use Rattle.trace_lines.specs.Heads.{IsInRange};
ghost use Rattle.trace_reader.specs.Refusals.{IsCause, first_call};
ghost use Rattle.trace_stream.specs.Streams.{GoesOn, HasOpening, IsKept, IsOfStream, IsPart, forms_of, most_stream_calls, next_refusal};

use crate::beginning::Opening;
use crate::next_line::{nothing_behind, whole_line};
use io_core::Source;
use line_source::Ahead;
use pager_model::Line;
use trace_lines::call;
use trace_reader::{TraceFault, first_call};

/// The most calls of a stream: each has a number of 32 bits.
pub const MOST_STREAM_CALLS: u32 = 4_294_967_295;

/// The line behind the last call.
const END: &[u8] = b"end";

/// Reads the line that comes after so many calls: the next call; or none, where it is the line `end` and nothing stands behind it.
pub fn next_call<T: Source>(
    opening: &Opening,
    calls: u32,
    ahead: &mut Ahead,
    source: &mut T,
) -> Result<Option<Line>, TraceFault>
    requires range { IsInRange opening.now.head }
    requires opening { HasOpening opening.now.head opening.now.trace }
    ensures line { IfOk result (λ next. IfSome next (IsLine opening.now.head.version opening.now.head.processors opening.now.head.spaces)) }
    ensures few { IfOk result (λ next. IfSome next (λ _. calls < most_stream_calls)) }
    ensures few_ahead { length ahead.new ≤ 4096 }
    ensures reads { IfOk result (λ next. IfSome (seen ahead.old (T.left source.old))
        (λ bytes. GoesOn bytes next (seen ahead.new (T.left source.new)))) }
    ensures refused { IfErr result (λ fault. IfSome (seen ahead.old (T.left source.old))
        (λ bytes. IsCause (next_refusal (forms_of opening.now.trace) (first_call opening.now.trace.daemon + calls) calls bytes) fault)) }
    ensures own_fault { IfErr result IsOfStream }

    // No byte is lost, but for the line `end`.
    ensures kept { IfErr result (λ _. IfSome (seen ahead.old (T.left source.old)) (λ bytes. IsKept bytes (seen ahead.new (T.left source.new)))) }

    // A failed read is one fault, and before it no whole line was read but for the line `end`.
    ensures fault { IsErrOf result TraceFault.ReadFault → T.faults source.new ≡ one_more (T.faults source.old) }
    ensures no_other_fault { (IsErrOf result TraceFault.ReadFault → ⊥) → T.faults source.new ≡ T.faults source.old }
    ensures unread { IsErrOf result TraceFault.ReadFault → IsPart ahead.new }
{
    let number = first_call(opening.trace.daemon()) + u64::from(calls);
    let length = whole_line(number, ahead, source)?;
    let line = ahead.front(length);
    if line == END {
        ahead.pass(length + 1);
        nothing_behind(number, ahead, source)?;
        return Ok(None);
    }
    let call = match call(line, &opening.head) {
        Ok(call) => call,
        Err(cause) => return Err(TraceFault::Line { number, cause }),
    };
    if calls == MOST_STREAM_CALLS {
        return Err(TraceFault::TooManyCalls);
    }
    ahead.pass(length + 1);
    Ok(Some(call))
}
