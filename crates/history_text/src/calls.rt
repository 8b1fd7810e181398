//! The calls of a trace by processor.

ghost use Rattle.std.specs.Prelude.{◌≡◌, ◌≢◌, ◌<◌, [], ℕ, Some, None, All, IfOk, IfSome, IfNone, decimal, slice_get};
ghost use Rattle.pager_model.specs.declared.call.Line.{Line as Made};
ghost use Rattle.pager_model.specs.Showing.{actors};
ghost use Rattle.pager_model.specs.TraceText.{HasText};
ghost use Rattle.history_text.specs.Calls.{AreDealt};
ghost use Rattle.history_text.specs.HistoryText.{call_at};

use crate::word::small;
use pager_model::{Call, Line, NoMemory, Trace};
use std::alloc::Global;
use std::marker::Model;

/// A trace, and its calls dealt out to their processors.
///
/// Contracts see it as the trace.
#[derive(Drop)]
pub struct TraceCalls<'a> {
    trace: &'a Trace,
    /// For each processor its calls, in order.
    own: Vec<Vec<Call>>,
}

impl<'a> Model for TraceCalls<'a> {
    ghost use Rattle.pager_model.specs.Scripts.{Script};
    ghost use Rattle.history_text.specs.Calls.{AreDealt};

    ghost Value = { Script };

    ghost view = { λ t. t.trace.now };

    ghost invariant = { λ t. AreDealt (λ v. v.items) t.trace.now.processors t.trace.now.calls t.own.items };
}

impl<'a> TraceCalls<'a> {
    /// Deals the calls of a trace out.
    pub fn of(alloc: Global, trace: &'a Trace) -> Result<TraceCalls<'a>, NoMemory>
        ensures same { IfOk result (λ calls. calls ≡ trace.now) }
        ensures text { IfOk result (λ calls. HasText trace.now) }
    {
        let own = calls_by_processor(alloc, trace.processors(), trace.calls())?;
        Ok(TraceCalls { trace, own })
    }

    /// How many processors there are, with the daemon.
    pub fn actors(&self) -> u32
        ensures { result ≡ actors self.now }
    {
        self.trace.actors()
    }

    /// How many spaces there are.
    pub fn spaces(&self) -> u32
        ensures { result ≡ self.now.spaces }
    {
        self.trace.spaces()
    }

    /// The number that a word is, and the processor's call of this number, where there is one.
    pub fn named(&self, processor: u32, word: &[u8]) -> Option<(u32, Call)>
        ensures some { IfSome result (λ named. (word.now ≡ decimal named.0) × (call_at self.now processor named.0 ≡ Some named.1)) }
        ensures none { IfNone result ((n : ℕ) → call_at self.now processor n ≢ None → word.now ≢ decimal n) }
    {
        if processor >= self.trace.processors() {
            return None;
        }
        let number = small(word)?;
        let call = self.call_at(processor, number)?;
        Some((number, call))
    }

    /// The call of this number of a processor that makes calls, where there is one.
    fn call_at(&self, processor: u32, number: u32) -> Option<Call>
        requires { processor < self.now.processors }
        ensures { result ≡ call_at self.now processor number }
    {
        numbered_call(self.own[processor as usize].as_slice(), number)
    }
}

/// The call of this number, where there is one.
fn numbered_call(calls: &[Call], number: u32) -> Option<Call>
    ensures { result ≡ slice_get calls.now number }
{
    calls.get(number as usize).copied()
}

/// For each of so many processors its calls of these lines, in order.
fn calls_by_processor(
    alloc: Global,
    processors: u32,
    lines: &[Line],
) -> Result<Vec<Vec<Call>>, NoMemory>
    requires { All (λ (l : Made). l.processor < processors) lines.now }
    ensures { IfOk result (λ own. AreDealt (λ v. v.items) processors lines.now own.items) }
{
    let mut own = no_calls(alloc, processors)?;
    for line in lines {
        own[line.processor as usize].push(line.call)?;
    }
    Ok(own)
}

/// No calls for each of so many processors.
fn no_calls(alloc: Global, processors: u32) -> Result<Vec<Vec<Call>>, NoMemory>
    ensures { IfOk result (λ own. AreDealt (λ v. v.items) processors [] own.items) }
{
    let mut own = Vec::new(alloc);
    'rows: for _ in 0..processors {
        let calls: Vec<Call> = Vec::new(alloc);
        own.push(calls)?;
    }
    Ok(own)
}
