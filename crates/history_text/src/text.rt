//! A history's whole text.

ghost use Rattle.std.specs.Prelude.{◌≡◌, ◌+◌, ◌^◌, ◌<◌, ◌≤◌, ◌∷◌, ◌++◌, [], length, IfSome, IfOk, IfErr, OnOk, vec_capacity, vec_len};
ghost use Rattle.history_text.specs.HistoryText.{IsHistoryText};
ghost use Rattle.trace_reader.specs.Refusals.{lines_of};
ghost use Rattle.history_text.specs.Refusals.{IsCause, IsLineCause, Keeps, RefusedAtEnd, end_in};

use crate::calls::TraceCalls;
use crate::fault::HistoryFault;
use crate::line::entry;
use pager_model::{Entry, Numbered, Trace};
use std::alloc::Global;
use trace_lines::cut as cut_line;

const END: &[u8] = b"end";

/// How many bytes a text has up to and with its first line `end`, where it has one.
pub fn cut(bytes: &[u8]) -> Option<usize>
    ensures first { result ≡ end_in (lines_of bytes.now) }
    ensures within { IfSome result (λ n. n ≤ length bytes.now) }
{
    let mut rest = bytes;
    while let Some((line, after)) = cut_line(rest, b'\n') {
        if line == END {
            return Some(bytes.len() - after.len());
        }
        rest = after;
    }
    None
}

/// Reads the text of a history of this trace: a line for each entry, and the line `end`, behind which nothing may stand.
///
/// Memory is taken as the history grows.
pub fn read_history(
    alloc: Global,
    trace: &Trace,
    bytes: &[u8],
) -> Result<Vec<Numbered>, HistoryFault>
    ensures ok { IfOk result (λ history. IsHistoryText trace.now bytes.now history.items) }
    ensures few { IfOk result (λ history. length history.items ≤ length bytes.now) }
    ensures refused { IfErr result (λ fault. IsCause trace.now bytes.now fault) }
{
    let trace = TraceCalls::of(alloc, trace).map_err(|_| HistoryFault::NoMemory)?;
    let mut history = Vec::new(alloc);
    read_lines(&mut history, &trace, bytes)?;
    Ok(history)
}

/// Keeps the entries of the lines, up to the line `end`.
fn read_lines(
    history: &mut Vec<Numbered>,
    trace: &TraceCalls,
    bytes: &[u8],
) -> Result<(), HistoryFault>
    requires { history.old.items ≡ [] }
    ensures ok { OnOk result (IsHistoryText trace.now bytes.now history.new.items) }
    ensures refused { IfErr result (λ fault. IsCause trace.now bytes.now fault) }
{
    let mut rest = bytes;
    'lines: loop {
        let Some((line, after)) = cut_line(rest, b'\n') else {
            return Err(HistoryFault::NoEnd);
        };
        if line == END {
            return nothing_behind(history.len() as u64 + 1, after);
        }
        keep_line(history, trace, line)?;
        rest = after;
    }
}

/// That nothing stands behind the line `end`, which has this number from 1.
fn nothing_behind(number: u64, text: &[u8]) -> Result<(), HistoryFault>
    requires { number + 1 < 2 ^ 64 }
    ensures ok { OnOk result (text.now ≡ []) }
    ensures refused { IfErr result (λ fault. RefusedAtEnd number (lines_of text.now) fault) }
{
    if text.is_empty() {
        Ok(())
    } else {
        Err(HistoryFault::Line { number: number + 1 })
    }
}

/// Keeps the entry that a line says, behind the others.
fn keep_line(
    history: &mut Vec<Numbered>,
    trace: &TraceCalls,
    line: &[u8],
) -> Result<(), HistoryFault>
    ensures kept { OnOk result (Keeps trace.now history.old.items line.now history.new.items) }
    ensures refused { IfErr result (λ fault. IsLineCause trace.now (length history.old.items) line.now fault) }
{
    history.reserve(1).map_err(|_| HistoryFault::NoMemory)?;
    let number = history.len() as u64;
    match entry(line, number, trace) {
        Some(entry) => {
            push(history, number, entry);
            Ok(())
        }
        None => Err(HistoryFault::Line { number: number + 1 }),
    }
}

/// Puts an entry behind the others, for which there is room.
fn push(history: &mut Vec<Numbered>, number: u64, entry: Entry)
    requires { vec_len history.old < vec_capacity history.old }
    ensures { history.new.items ≡ history.old.items ++ record { number = number; entry = entry } ∷ [] }
{
    history.push_reserved(Numbered { number, entry });
}
