//! Whether the answers of a history are the calls of a trace.

ghost use Rattle.std.specs.Prelude.{◌≡◌, ◌↔◌, ℕ, ◌+◌, ◌<◌, ◌≤◌, ◌∷◌, [], true, false, List, Some, None, IfSome, IfNone, length, drop, if◌then◌else◌};
ghost use Rattle.pager_model.specs.Bounds.{most_calls};
ghost use Rattle.pager_model.specs.declared.entry.Entry.{Entry as Item};
ghost use Rattle.pager_model.specs.Entries.{is_of};
ghost use Rattle.pager_model.specs.Legal.{entries_in};
ghost use Rattle.pager_model.specs.Showing.{answer_in, calls_of};
ghost use Rattle.history_check.specs.Shown.{AnswersShown, AllAnswersShown, IsNextLine, IsWithin, RestShown};

use pager_model::{Call, Entry, Line, Numbered, Trace, What};

/// The lines from a place on have the calls that aren't answered yet, of which the next has this number.
#[derive(Clone, Copy)]
struct Awaited {
    place: usize,
    number: u32,
}

/// The number and the call of an answer of the processor.
fn answer_of(processor: u32, entry: &Entry) -> Option<(u32, Call)>
    ensures { result ≡ (if is_of processor entry.now then answer_in entry.now.what else None) }
{
    match entry.what {
        What::Answer { number, call, .. } if entry.processor == processor => Some((number, call)),
        _ => None,
    }
}

/// Whether it is the call of the line.
fn is_call_of(call: Call, line: &Line) -> bool
    ensures is { result ≡ true → call ≡ line.now.call }
    ensures other { result ≡ false → call ≡ line.now.call → ⊥ }
{
    call == line.call
}

/// The place of the processor's next call, from a place on.
fn next_call(processor: u32, lines: &[Line], from: usize) -> Option<usize>
    ensures some { IfSome result (IsNextLine processor lines.now from) }
    ensures none { IfNone result (calls_of processor (drop from lines.now) ≡ []) }
{
    for place in from..lines.len() {
        if lines[place].processor == processor {
            return Some(place);
        }
    }
    None
}

/// Which calls are awaited after an entry, where it is no answer of the processor or answers the next of its calls.
fn awaited_after(processor: u32, lines: &[Line], awaited: Awaited, entry: &Entry) -> Option<Awaited>
    requires few { length lines.now ≤ most_calls }
    requires within { IsWithin lines.now awaited }
    ensures within { IfSome result (IsWithin lines.now) }
    ensures goes_on { IfSome result (λ next. (rest : List Item)
        → RestShown processor lines.now awaited (entry.now ∷ rest) ↔ RestShown processor lines.now next rest) }
    ensures breaks { IfNone result ((rest : List Item) → RestShown processor lines.now awaited (entry.now ∷ rest) → ⊥) }
{
    let Some((number, call)) = answer_of(processor, entry) else {
        return Some(awaited);
    };
    let place = next_call(processor, lines, awaited.place)?;
    if number != awaited.number || !is_call_of(call, &lines[place]) {
        return None;
    }
    Some(Awaited {
        place: place + 1,
        number: number + 1,
    })
}

/// Whether the answers of a processor are its calls, in order and numbered from 0.
fn shows_calls(processor: u32, lines: &[Line], history: &[Numbered]) -> bool
    requires few { length lines.now ≤ most_calls }
    ensures shows { result ≡ true → AnswersShown processor lines.now (entries_in history.now) }
    ensures other { result ≡ false → AnswersShown processor lines.now (entries_in history.now) → ⊥ }
{
    let mut awaited = Awaited {
        place: 0,
        number: 0,
    };
    for numbered in history {
        let Some(next) = awaited_after(processor, lines, awaited, &numbered.entry) else {
            return false;
        };
        awaited = next;
    }
    next_call(processor, lines, awaited.place).is_none()
}

/// Whether the answers of each processor that makes calls are its calls of the trace.
pub(crate) fn shows_all_calls(trace: &Trace, history: &[Numbered]) -> bool
    ensures shows { result ≡ true → AllAnswersShown trace.now (entries_in history.now) }
    ensures other { result ≡ false → AllAnswersShown trace.now (entries_in history.now) → ⊥ }
{
    let lines = trace.calls();
    for processor in 0..trace.processors() {
        if !shows_calls(processor, lines, history) {
            return false;
        }
    }
    true
}
