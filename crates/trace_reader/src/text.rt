//! A trace's whole text.
ghost use Rattle.std.specs.Prelude.{◌≡◌, ◌<◌, ◌≤◌, ◌+◌, ◌^◌, ℕ, ◌∷◌, ◌++◌, [], All, List, Some, length, flat_map, codes, IfOk, IfErr, IfNone, IfSome, IsErrOf};
ghost use Rattle.pager_model.specs.TraceText.{IsDaemon, IsLine, IsTextOf, call_line, daemon_line, line_of_words};
ghost use Rattle.trace_lines.specs.Forms.{Place, call_forms};
ghost use Rattle.trace_lines.specs.Heads.{IsInRange};
ghost use Rattle.trace_reader.specs.Refusals.{IsCause, IsOfReader, calls_refusal, first_call, lines_of, refusal_of, second_refusal};

use crate::fault::TraceFault;
use pager_model::{Daemon, Line, Trace};
use std::alloc::Global;
use trace_lines::{Head, LineCause, call, cut, cut_call, daemon, daemon_numbers, first_line};

/// The most bytes that a trace's text has.
pub const MAX_BYTES: usize = 16_777_216;

/// The most calls that a trace has.
pub const MAX_CALLS: usize = 262_144;

const END: &[u8] = b"end";

/// The daemon of the line behind a trace's first one, where that line is a daemon's, and the text of the lines of calls.
fn second_line(text: &[u8]) -> Result<(Option<Daemon>, &[u8]), LineCause>
    ensures range { IfOk result (λ parts. IsDaemon parts.0) }
    ensures text { IfOk result (λ parts. text.now ≡ daemon_line parts.0 ++ parts.1.now) }
    ensures rest { IfOk result (λ parts. (forms : List (List Place)) → second_refusal forms (lines_of text.now)
        ≡ calls_refusal forms (first_call parts.0) 0 (lines_of parts.1.now)) }
    ensures refused { IfErr result (λ cause. (forms : List (List Place))
        → second_refusal forms (lines_of text.now) ≡ Some (TraceFault.Line 2 cause)) }
{
    let Some((line, rest)) = cut(text, b'\n') else {
        return Ok((None, text));
    };
    let Some((low, turns)) = daemon_numbers(line) else {
        return Ok((None, text));
    };
    let daemon = daemon(low, turns)?;
    Ok((Some(daemon), rest))
}

/// The number of the line of the first call, behind a daemon's line or none.
pub fn first_call(daemon: Option<Daemon>) -> u64
    ensures { result ≡ first_call daemon }
{
    if daemon.is_some() { 3 } else { 2 }
}

/// The call of the first line of a text, which has this number, and the text behind that line; or none, where it is the line `end` and nothing
/// stands behind it.
fn next_call<'a>(
    head: &Head,
    number: u64,
    text: &'a [u8],
) -> Result<Option<(Line, &'a [u8])>, TraceFault>
    requires number { number < 2 ^ 63 }
    requires range { IsInRange head.now }
    ensures line { IfOk result (λ next. IfSome next (λ parts. IsLine head.now.version head.now.processors head.now.spaces parts.0)) }
    ensures text { IfOk result (λ next. IfSome next (λ parts. text.now ≡ call_line parts.0 ++ parts.1.now)) }
    ensures end { IfOk result (λ next. IfNone next (text.now ≡ line_of_words (codes "end" ∷ []))) }
    ensures refused { IfErr result (λ fault. (calls : ℕ) → IsCause
        (calls_refusal (call_forms head.now.version head.now.processors head.now.spaces) number calls (lines_of text.now)) fault) }
    ensures all_was_read { IsErrOf result TraceFault.ReadFault → ⊥ }
    ensures own_fault { IfErr result IsOfReader }
{
    if let Some(parts) = cut_call(text, head) {
        return Ok(Some(parts));
    }
    let Some((line, after)) = cut(text, b'\n') else {
        return Err(TraceFault::NoEnd);
    };
    if line == END {
        if after.is_empty() {
            return Ok(None);
        }
        return Err(TraceFault::Line {
            number: number + 1,
            cause: LineCause::After,
        });
    }
    let call = match call(line, head) {
        Ok(call) => call,
        Err(cause) => return Err(TraceFault::Line { number, cause }),
    };
    Ok(Some((call, after)))
}

/// The calls of the lines, of which the first has this number, up to the line `end`, behind which nothing may stand.
fn calls(alloc: Global, head: &Head, first: u64, text: &[u8]) -> Result<Vec<Line>, TraceFault>
    requires first { first ≤ 3 }
    requires range { IsInRange head.now }
    ensures lines { IfOk result (λ calls. All (IsLine head.now.version head.now.processors head.now.spaces) calls.items) }
    ensures few { IfOk result (λ calls. length calls.items ≤ MAX_CALLS) }
    ensures text { IfOk result
        (λ calls. text.now ≡ flat_map call_line calls.items ++ line_of_words (codes "end" ∷ [])) }
    ensures refused { IfErr result (λ fault. IsCause
        (calls_refusal (call_forms head.now.version head.now.processors head.now.spaces) first 0 (lines_of text.now)) fault) }
    ensures all_was_read { IsErrOf result TraceFault.ReadFault → ⊥ }
    ensures own_fault { IfErr result IsOfReader }
{
    let mut calls = Vec::new(alloc);
    let mut rest = text;
    'lines: loop {
        let number = first + calls.len() as u64;
        let Some((call, after)) = next_call(head, number, rest)? else {
            return Ok(calls);
        };
        if calls.len() == MAX_CALLS {
            return Err(TraceFault::TooManyCalls);
        }
        calls.push(call).map_err(|_| TraceFault::NoMemory)?;
        rest = after;
    }
}

/// The trace that has this text.
pub fn parse(alloc: Global, text: &[u8]) -> Result<Trace, TraceFault>
    ensures ok { IfOk result (λ trace. IsTextOf text.now trace) }
    ensures refused { IfErr result (λ fault. IsCause (refusal_of text.now) fault) }
    ensures all_was_read { IsErrOf result TraceFault.ReadFault → ⊥ }
    ensures own_fault { IfErr result IsOfReader }
{
    if text.len() > MAX_BYTES {
        return Err(TraceFault::TooLong);
    }
    let Some((line, rest)) = cut(text, b'\n') else {
        return Err(TraceFault::NoEnd);
    };
    let head = match first_line(line) {
        Ok(head) => head,
        Err(cause) => return Err(TraceFault::Line { number: 1, cause }),
    };
    let (daemon, rest) = match second_line(rest) {
        Ok(parts) => parts,
        Err(cause) => return Err(TraceFault::Line { number: 2, cause }),
    };
    let calls = calls(alloc, &head, first_call(daemon), rest)?;
    Ok(Trace::of(
        head.version,
        head.frames,
        head.processors,
        head.spaces,
        head.sizes,
        daemon,
        calls,
    ))
}
