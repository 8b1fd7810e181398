//! The line that comes next, whichever it is.
ghost use Rattle.std.specs.Prelude.{◌≡◌, ◌<◌, ◌≤◌, ◌^◌, [], IfErr, IfOk, IfSome, IsErrOf, OnOk, Some, length};
ghost use Rattle.io_core.specs.Faults.{one_more};
ghost use Rattle.line_source.specs.Lines.{IsLineAt, seen};
ghost use Rattle.trace_reader.specs.Refusals.{IsCause, end_refusal, lines_of};
ghost use Rattle.trace_stream.specs.Streams.{IsOfStream, IsPart, missing};

use io_core::Source;
use line_source::{Ahead, Next};
use trace_reader::{LineCause, TraceFault};

/// How many bytes the next line has, which has this number. It isn't passed yet.
pub fn whole_line<T: Source>(
    number: u64,
    ahead: &mut Ahead,
    source: &mut T,
) -> Result<usize, TraceFault>
    ensures line { IfOk result (λ n. IsLineAt n ahead.new) }
    ensures short { IfOk result (λ n. n ≤ 4095) }
    ensures few_ahead { length ahead.new ≤ 4096 }
    ensures same { IfSome (T.left source.old) (λ _. seen ahead.new (T.left source.new) ≡ seen ahead.old (T.left source.old)) }
    ensures refused { IfErr result (λ fault. IfSome (seen ahead.old (T.left source.old))
        (λ bytes. IsCause (missing number (lines_of bytes)) fault)) }
    ensures own_fault { IfErr result IsOfStream }
    ensures fault { IsErrOf result TraceFault.ReadFault → T.faults source.new ≡ one_more (T.faults source.old) }
    ensures no_other_fault { (IsErrOf result TraceFault.ReadFault → ⊥) → T.faults source.new ≡ T.faults source.old }
    ensures unread { IsErrOf result TraceFault.ReadFault → IsPart ahead.new }
{
    let Ok(next) = ahead.look(source) else {
        return Err(TraceFault::ReadFault);
    };
    match next {
        Next::Line(length) => Ok(length),
        Next::Long => Err(TraceFault::LongLine { number }),
        Next::Rest(_) => Err(TraceFault::NoEnd),
    }
}

/// Tells whether nothing stands behind the line `end`, which has this number.
pub fn nothing_behind<T: Source>(
    number: u64,
    ahead: &mut Ahead,
    source: &mut T,
) -> Result<(), TraceFault>
    requires { number < 2 ^ 63 }
    ensures end { OnOk result (IfSome (seen ahead.old (T.left source.old))
        (λ bytes. (bytes ≡ []) × (seen ahead.new (T.left source.new) ≡ Some []))) }
    ensures few_ahead { length ahead.new ≤ 4096 }
    ensures same { IfSome (T.left source.old) (λ _. seen ahead.new (T.left source.new) ≡ seen ahead.old (T.left source.old)) }
    ensures refused { IfErr result (λ fault. IfSome (seen ahead.old (T.left source.old))
        (λ bytes. IsCause (end_refusal number (lines_of bytes)) fault)) }
    ensures own_fault { IfErr result IsOfStream }
    ensures fault { IsErrOf result TraceFault.ReadFault → T.faults source.new ≡ one_more (T.faults source.old) }
    ensures no_other_fault { (IsErrOf result TraceFault.ReadFault → ⊥) → T.faults source.new ≡ T.faults source.old }
    ensures unread { IsErrOf result TraceFault.ReadFault → IsPart ahead.new }
{
    let Ok(_) = ahead.look(source) else {
        return Err(TraceFault::ReadFault);
    };
    if ahead.is_empty() {
        Ok(())
    } else {
        Err(TraceFault::Line {
            number: number + 1,
            cause: LineCause::After,
        })
    }
}
