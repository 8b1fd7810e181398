//! A trace and a history of it, read from one source.

ghost use Rattle.std.specs.Prelude.{◌≡◌, ◌≤◌, ◌<◌, ◌^◌, [], Some, IfOk, IfErr, IfSome, IsErrOf, IsSomeAnd, length, All};
ghost use Rattle.followed_space.specs.Follows.{AnswersLine};
ghost use Rattle.history_text.specs.declared.fault.HistoryFault.{HistoryFault as Fault};
ghost use Rattle.io_core.specs.Faults.{one_more};
ghost use Rattle.pager_model.specs.declared.entry.Numbered.{Numbered as NumberedItem};
ghost use Rattle.history_check.specs.Texts.{AreCause, AreTexts, IsFailure, IsJudgeable, most_bytes, told_fault};

use history_text::{HistoryFault, cut, read_all, read_history};
use io_core::Source;
use pager_model::{Numbered, Trace};
use std::alloc::Global;
use trace_reader::{TraceFault, parse};

/// A trace, and a history that is to be judged as one of it.
pub type Judgeable = (Trace, Vec<Numbered>);

/// Reads a trace up to the first line `end`, and a history of it behind that, to the end of their source.
///
/// The bytes are let go then. After an `Err` it is open how much of the source was read.
pub fn read_texts<T: Source>(alloc: Global, source: &mut T) -> Result<Judgeable, TraceFault>
    // Where the source tells its bytes: they are the texts of these, and all of them were read.
    ensures texts { IfOk result (λ read. IfSome (T.left source.old)
        (λ bytes. AreTexts bytes read.0 read.1.items × (length bytes ≤ most_bytes) × (T.left source.new ≡ Some []))) }
    // The history can be judged.
    ensures lines { IfOk result (λ read. All (λ (n : NumberedItem). AnswersLine n.entry.what) read.1.items) }
    ensures few { IfOk result (λ read. length read.1.items < 2 ^ 45) }
    // A refusal is that of the bytes.
    ensures refused { IfErr result (λ fault. IfSome (T.left source.old) (λ bytes. AreCause bytes fault)) }
    ensures complete { IfErr result (λ fault. IsSomeAnd (T.left source.old) IsJudgeable → IsFailure fault) }
    ensures fault { IsErrOf result TraceFault.ReadFault → T.faults source.new ≡ one_more (T.faults source.old) }
    ensures no_other_fault { (IsErrOf result TraceFault.ReadFault → ⊥) → T.faults source.new ≡ T.faults source.old }
{
    let bytes = read_all(alloc, source)?;
    let text = bytes.as_slice();
    let end = cut(text).unwrap_or(text.len());
    let trace = parse(alloc, &text[..end])?;
    match read_history(alloc, &trace, &text[end..]) {
        Ok(history) => Ok((trace, history)),
        Err(fault) => Err(history_fault(fault)),
    }
}

/// What is told of the refusal of a history's text.
fn history_fault(fault: HistoryFault) -> TraceFault
    ensures { result ≡ told_fault fault }
{
    match fault {
        HistoryFault::Line { number } => TraceFault::HistoryLine { number },
        HistoryFault::NoEnd => TraceFault::HistoryNoEnd,
        HistoryFault::NoMemory => TraceFault::NoMemory,
    }
}
