//! The lines before the calls.
ghost use Rattle.std.specs.Prelude.{◌≡◌, ◌≤◌, [], IfErr, IfOk, IfSome, IsErrOf, length};
ghost use Rattle.io_core.specs.Faults.{one_more};
ghost use Rattle.line_source.specs.Lines.{seen};
ghost use Rattle.pager_model.specs.TraceText.{IsDaemon};
ghost use Rattle.trace_lines.specs.Heads.{IsInRange};
ghost use Rattle.trace_reader.specs.Refusals.{IsCause, lines_of};
ghost use Rattle.trace_stream.specs.Streams.{HasOpening, IsOfStream, IsPart, IsUnopened, OpensBehind, OpensWith, daemon_refusal, opening_refusal};

use crate::next_line::whole_line;
use io_core::Source;
use line_source::{Ahead, Next};
use pager_model::{Daemon, Trace};
use std::alloc::Global;
use trace_lines::{Head, daemon, daemon_numbers, first_line};
use trace_reader::TraceFault;

/// What the lines before the calls say.
#[derive(Drop)]
pub struct Opening {
    pub head: Head,
    /// The trace, of whose calls none is read yet.
    pub trace: Trace,
}

/// Reads the lines before the calls: the first one, and the daemon's where the second is one.
pub fn open<T: Source>(
    alloc: Global,
    ahead: &mut Ahead,
    source: &mut T,
) -> Result<Opening, TraceFault>
    requires none_read { ahead.old ≡ [] }
    ensures range { IfOk result (λ o. IsInRange o.head) }
    ensures opening { IfOk result (λ o. HasOpening o.head o.trace) }
    ensures reads { IfOk result (λ o. IfSome (T.left source.old)
        (λ bytes. OpensWith bytes o.trace (seen ahead.new (T.left source.new)))) }
    ensures refused { IfErr result (λ fault. IfSome (T.left source.old) (λ bytes. IsCause (opening_refusal bytes) fault)) }
    ensures own_fault { IfErr result IsOfStream }
    ensures few_ahead { length ahead.new ≤ 4096 }

    // A failed read is one fault, and before it at most the first line was read, which is one.
    ensures fault { IsErrOf result TraceFault.ReadFault → T.faults source.new ≡ one_more (T.faults source.old) }
    ensures no_other_fault { (IsErrOf result TraceFault.ReadFault → ⊥) → T.faults source.new ≡ T.faults source.old }
    ensures unopened { IsErrOf result TraceFault.ReadFault → IfSome (T.left source.old) (λ bytes. IsUnopened bytes (T.left source.new)) }
{
    let length = whole_line(1, ahead, source)?;
    let head = match first_line(ahead.front(length)) {
        Ok(head) => head,
        Err(cause) => return Err(TraceFault::Line { number: 1, cause }),
    };
    ahead.pass(length + 1);
    let daemon = daemon_behind(ahead, source)?;
    let trace = Trace::of(
        head.version,
        head.frames,
        head.processors,
        head.spaces,
        head.sizes,
        daemon,
        Vec::new(alloc),
    );
    Ok(Opening { head, trace })
}

/// The daemon of the line behind the first one, where that line is a daemon's; it isn't passed where it is none.
fn daemon_behind<T: Source>(ahead: &mut Ahead, source: &mut T) -> Result<Option<Daemon>, TraceFault>
    ensures range { IfOk result (λ daemon. IsDaemon daemon) }
    ensures reads { IfOk result (λ daemon. IfSome (seen ahead.old (T.left source.old))
        (λ bytes. OpensBehind bytes daemon (seen ahead.new (T.left source.new)))) }
    ensures refused { IfErr result (λ fault. IfSome (seen ahead.old (T.left source.old))
        (λ bytes. IsCause (daemon_refusal (lines_of bytes)) fault)) }
    ensures own_fault { IfErr result IsOfStream }
    ensures few_ahead { length ahead.new ≤ 4096 }
    ensures fault { IsErrOf result TraceFault.ReadFault → T.faults source.new ≡ one_more (T.faults source.old) }
    ensures no_other_fault { (IsErrOf result TraceFault.ReadFault → ⊥) → T.faults source.new ≡ T.faults source.old }
    ensures same { IsErrOf result TraceFault.ReadFault → IfSome (T.left source.old)
        (λ _. seen ahead.new (T.left source.new) ≡ seen ahead.old (T.left source.old)) }
    ensures unread { IsErrOf result TraceFault.ReadFault → IsPart ahead.new }
{
    let Ok(next) = ahead.look(source) else {
        return Err(TraceFault::ReadFault);
    };
    let length = match next {
        Next::Line(length) => length,
        Next::Long => return Err(TraceFault::LongLine { number: 2 }),
        Next::Rest(_) => return Ok(None),
    };
    let Some((low, turns)) = daemon_numbers(ahead.front(length)) else {
        return Ok(None);
    };
    let daemon = match daemon(low, turns) {
        Ok(daemon) => daemon,
        Err(cause) => return Err(TraceFault::Line { number: 2, cause }),
    };
    ahead.pass(length + 1);
    Ok(Some(daemon))
}
