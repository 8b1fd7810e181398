//! The report of a run: each call's answer, the history where it is asked for, and the counts.

ghost use Rattle.std.specs.Prelude.{◌≡◌, ◌+◌, ◌≤◌, if◌then◌else◌, [], length, option_to_list, slice_get, OnOk, OnErr};
ghost use Rattle.io_core.specs.Faults.{one_more};
ghost use Rattle.pager_model.specs.Legal.{entries_in};
ghost use Rattle.pager_model.specs.PrintedText.{answers_of, answers_text, history_line, history_text, out_text, summary_text};
ghost use Rattle.report_text.specs.Parts.{has_history};
ghost use Rattle.report_text.specs.Writing.{Puts, outgoing};
ghost use Rattle.report_text.specs.Written.{WroteAll, WrotePart};

use crate::entry_words::{put_answer, put_entry};
use crate::summary_lines::{SUMMARY, put_summary_lines};
use crate::text::LONGEST;
use crate::writing::Room;
use io_core::{Sink, WriteFailed};
use pager_model::{Numbered, Summary};
use run_history::History;

/// Which parts of a run are printed before its counts.
#[derive(Clone, Copy, Debug, PartialEq, Eq)]
pub enum Parts {
    Answers,
    AnswersAndHistory,
}

/// Writes the answers of so many processors, ascending, then the history where the parts have it, then the counts. After a failed write the
/// sink has taken a beginning of that.
///
/// It takes no memory. The history is gone over once for each processor, with one look at each entry of another.
pub fn write_report<K: Sink>(
    sink: &mut K,
    processors: u32,
    history: &History,
    summary: &Summary,
    parts: Parts,
) -> Result<(), WriteFailed>
    ensures whole { OnOk result (WroteAll (out_text (has_history parts) processors history.now.items summary.now) (K.taken sink.old) (K.taken sink.new)) }
    ensures part { OnErr result (WrotePart (out_text (has_history parts) processors history.now.items summary.now) (K.taken sink.old) (K.taken sink.new)) }
    ensures few_writes { K.writes sink.new ≤ K.writes sink.old + length (out_text (has_history parts) processors history.now.items summary.now) }
    ensures unfailed { OnOk result (K.faults sink.new ≡ K.faults sink.old) }
    ensures rose { OnErr result (K.faults sink.new ≡ one_more (K.faults sink.old)) }
{
    let mut room = Room::new();
    put_report(&mut room, sink, processors, history, summary, parts)
}

/// Writes the counts alone. After a failed write the sink has taken a beginning of their text.
///
/// It takes no memory.
pub fn write_summary<K: Sink>(sink: &mut K, summary: &Summary) -> Result<(), WriteFailed>
    ensures whole { OnOk result (WroteAll (summary_text summary.now) (K.taken sink.old) (K.taken sink.new)) }
    ensures part { OnErr result (WrotePart (summary_text summary.now) (K.taken sink.old) (K.taken sink.new)) }
    ensures few_writes { K.writes sink.new ≤ K.writes sink.old + length (summary_text summary.now) }
    ensures unfailed { OnOk result (K.faults sink.new ≡ K.faults sink.old) }
    ensures rose { OnErr result (K.faults sink.new ≡ one_more (K.faults sink.old)) }
{
    let mut room = Room::new();
    put_summary(&mut room, sink, summary)
}

/// Puts the whole report, and sends it.
fn put_report<K: Sink>(
    room: &mut Room,
    sink: &mut K,
    processors: u32,
    history: &History,
    summary: &Summary,
    parts: Parts,
) -> Result<(), WriteFailed>
    ensures puts { Puts result
        (outgoing (K.taken sink.old) (K.writes sink.old) (K.faults sink.old) room.old.bytes.items)
        (outgoing (K.taken sink.new) (K.writes sink.new) (K.faults sink.new) room.new.bytes.items)
        (out_text (has_history parts) processors history.now.items summary.now) }
    ensures empty { OnOk result (room.new.bytes.items ≡ []) }
{
    put_answers(room, sink, processors, history)?;
    put_history(room, sink, parts, history)?;
    put_summary(room, sink, summary)
}

/// Puts the counts, and sends what waits.
fn put_summary<K: Sink>(room: &mut Room, sink: &mut K, summary: &Summary) -> Result<(), WriteFailed>
    ensures puts { Puts result
        (outgoing (K.taken sink.old) (K.writes sink.old) (K.faults sink.old) room.old.bytes.items)
        (outgoing (K.taken sink.new) (K.writes sink.new) (K.faults sink.new) room.new.bytes.items)
        (summary_text summary.now) }
    ensures empty { OnOk result (room.new.bytes.items ≡ []) }
{
    room.make_room(sink, SUMMARY)?;
    put_summary_lines(&mut room.bytes, summary);
    room.send(sink)
}

/// Puts the answers of so many processors, ascending.
fn put_answers<K: Sink>(
    room: &mut Room,
    sink: &mut K,
    processors: u32,
    history: &History,
) -> Result<(), WriteFailed>
    ensures { Puts result
        (outgoing (K.taken sink.old) (K.writes sink.old) (K.faults sink.old) room.old.bytes.items)
        (outgoing (K.taken sink.new) (K.writes sink.new) (K.faults sink.new) room.new.bytes.items)
        (answers_text processors (entries_in history.now.items)) }
{
    for processor in 0..processors {
        put_answers_of(room, sink, processor, history)?;
    }
    Ok(())
}

/// Puts the answers of a processor.
fn put_answers_of<K: Sink>(
    room: &mut Room,
    sink: &mut K,
    processor: u32,
    history: &History,
) -> Result<(), WriteFailed>
    ensures { Puts result
        (outgoing (K.taken sink.old) (K.writes sink.old) (K.faults sink.old) room.old.bytes.items)
        (outgoing (K.taken sink.new) (K.writes sink.new) (K.faults sink.new) room.new.bytes.items)
        (answers_of (entries_in history.now.items) processor) }
{
    let mut from = 0;
    while let Some(place) = history.next_by(from, processor) {
        put_answer_of(room, sink, processor, history, place)?;
        from = place + 1;
    }
    Ok(())
}

/// Puts the line of the entry at a place, where it is an answer of the processor. Others have none.
fn put_answer_of<K: Sink>(
    room: &mut Room,
    sink: &mut K,
    processor: u32,
    history: &History,
    place: usize,
) -> Result<(), WriteFailed>
    ensures { Puts result
        (outgoing (K.taken sink.old) (K.writes sink.old) (K.faults sink.old) room.old.bytes.items)
        (outgoing (K.taken sink.new) (K.writes sink.new) (K.faults sink.new) room.new.bytes.items)
        (answers_of (entries_in (option_to_list (slice_get history.now.items place))) processor) }
{
    let Some((number, answered)) = history.answer_by(place, processor) else {
        return Ok(());
    };
    room.make_room(sink, LONGEST)?;
    put_answer(&mut room.bytes, processor, number, &answered);
    Ok(())
}

/// Puts the history where the parts have it.
fn put_history<K: Sink>(
    room: &mut Room,
    sink: &mut K,
    parts: Parts,
    history: &History,
) -> Result<(), WriteFailed>
    ensures { Puts result
        (outgoing (K.taken sink.old) (K.writes sink.old) (K.faults sink.old) room.old.bytes.items)
        (outgoing (K.taken sink.new) (K.writes sink.new) (K.faults sink.new) room.new.bytes.items)
        (if has_history parts then history_text history.now.items else []) }
{
    match parts {
        Parts::Answers => Ok(()),
        Parts::AnswersAndHistory => put_entries(room, sink, history),
    }
}

/// Puts a line for each entry.
fn put_entries<K: Sink>(room: &mut Room, sink: &mut K, history: &History) -> Result<(), WriteFailed>
    ensures { Puts result
        (outgoing (K.taken sink.old) (K.writes sink.old) (K.faults sink.old) room.old.bytes.items)
        (outgoing (K.taken sink.new) (K.writes sink.new) (K.faults sink.new) room.new.bytes.items)
        (history_text history.now.items) }
{
    for place in 0..history.len() {
        let Some(numbered) = history.get(place) else {
            unreachable!()
        };
        put_line_of(room, sink, &numbered)?;
    }
    Ok(())
}

/// Puts the line of an entry.
#[tactic(auto, using(crate::proofs::SentBytes::into_room))]
fn put_line_of<K: Sink>(
    room: &mut Room,
    sink: &mut K,
    numbered: &Numbered,
) -> Result<(), WriteFailed>
    ensures { Puts result
        (outgoing (K.taken sink.old) (K.writes sink.old) (K.faults sink.old) room.old.bytes.items)
        (outgoing (K.taken sink.new) (K.writes sink.new) (K.faults sink.new) room.new.bytes.items)
        (history_line numbered.now) }
{
    room.make_room(sink, LONGEST)?;
    put_entry(&mut room.bytes, numbered);
    Ok(())
}
