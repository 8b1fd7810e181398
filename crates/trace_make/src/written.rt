//! The text of a trace.

ghost use Rattle.std.specs.Prelude.{◌≡◌, ◌+◌, ◌≤◌, ◌==◌, if◌then◌else◌, [], ◌∷◌, OnOk, OnErr, codes, flat_map, length};
ghost use Rattle.io_core.specs.Faults.{one_more};
ghost use Rattle.pager_model.specs.TraceText.{call_line, call_words, daemon_line, daemon_words, first_line, kind_word, line_of_words, rights_word, sizes_word, text_of};
ghost use Rattle.report_text.specs.Lines.{Adds, Gains, GrowsBy, HasRoom};
ghost use Rattle.report_text.specs.Writing.{Puts, outgoing};
ghost use Rattle.report_text.specs.Written.{WroteAll, WrotePart};

use io_core::{Sink, WriteFailed};
use pager_model::{Call, Daemon, Kind, Line, Rights, Size, Sizes, Trace};
use report_text::{LONGEST, Room, Text};

/// Writes the text of a trace: its first line, the daemon's where it has one, a line for each call, and the line `end`. After a failed write the sink has taken a beginning
/// of it.
///
/// It takes no memory.
pub fn write_trace<K: Sink>(sink: &mut K, trace: &Trace) -> Result<(), WriteFailed>
    ensures whole { OnOk result (WroteAll (text_of trace.now) (K.taken sink.old) (K.taken sink.new)) }
    ensures part { OnErr result (WrotePart (text_of trace.now) (K.taken sink.old) (K.taken sink.new)) }
    ensures few_writes { K.writes sink.new ≤ K.writes sink.old + length (text_of trace.now) }
    ensures unfailed { OnOk result (K.faults sink.new ≡ K.faults sink.old) }
    ensures rose { OnErr result (K.faults sink.new ≡ one_more (K.faults sink.old)) }
{
    let mut room = Room::new();
    put_trace(&mut room, sink, trace)
}

/// Puts the whole text, and sends it.
fn put_trace<K: Sink>(room: &mut Room, sink: &mut K, trace: &Trace) -> Result<(), WriteFailed>
    ensures puts { Puts result
        (outgoing (K.taken sink.old) (K.writes sink.old) (K.faults sink.old) room.old.bytes.items)
        (outgoing (K.taken sink.new) (K.writes sink.new) (K.faults sink.new) room.new.bytes.items)
        (text_of trace.now) }
    ensures empty { OnOk result (room.new.bytes.items ≡ []) }
{
    room.put_line(sink, &line_of_first(trace))?;
    put_daemon(room, sink, trace.daemon())?;
    put_calls(room, sink, trace.calls())?;
    room.finish(sink)
}

/// Puts the daemon's line, where there is one.
fn put_daemon<K: Sink>(
    room: &mut Room,
    sink: &mut K,
    daemon: Option<Daemon>,
) -> Result<(), WriteFailed>
    ensures { Puts result
        (outgoing (K.taken sink.old) (K.writes sink.old) (K.faults sink.old) room.old.bytes.items)
        (outgoing (K.taken sink.new) (K.writes sink.new) (K.faults sink.new) room.new.bytes.items)
        (daemon_line daemon) }
{
    match daemon {
        Some(daemon) => room.put_line(sink, &line_of_daemon(daemon)),
        None => Ok(()),
    }
}

/// Puts a line for each call.
pub fn put_calls<K: Sink>(room: &mut Room, sink: &mut K, calls: &[Line]) -> Result<(), WriteFailed>
    ensures { Puts result
        (outgoing (K.taken sink.old) (K.writes sink.old) (K.faults sink.old) room.old.bytes.items)
        (outgoing (K.taken sink.new) (K.writes sink.new) (K.faults sink.new) room.new.bytes.items)
        (flat_map call_line calls.now) }
{
    for line in calls {
        put_call(room, sink, line)?;
    }
    Ok(())
}

/// Puts the line of a call.
#[tactic(auto, using(report_text::proofs::SentBytes::into_room))]
fn put_call<K: Sink>(room: &mut Room, sink: &mut K, line: &Line) -> Result<(), WriteFailed>
    ensures { Puts result
        (outgoing (K.taken sink.old) (K.writes sink.old) (K.faults sink.old) room.old.bytes.items)
        (outgoing (K.taken sink.new) (K.writes sink.new) (K.faults sink.new) room.new.bytes.items)
        (call_line line.now) }
{
    room.make_room(sink, LONGEST)?;
    write_call(&mut room.bytes, line);
    Ok(())
}

/// Puts that line into a text.
fn write_call(text: &mut Text, line: &Line)
    requires { HasRoom LONGEST text.old }
    ensures { Gains (call_line line.now) text.old text.new }
{
    text.put_number(u64::from(line.processor));
    add_call(text, &line.call);
    text.end();
}

/// The first line of a trace's text.
pub fn line_of_first(trace: &Trace) -> Text
    ensures { result.items ≡ first_line trace.now }
{
    let version = trace.version();
    let mut text = Text::new();
    text.put_name("trace");
    text.add_counts(&[version, trace.frames(), trace.processors(), trace.spaces()]);
    add_sizes(&mut text, version, trace.sizes());
    text.end();
    text
}

/// Adds the word of the page sizes, which the first line of version 1 doesn't name.
fn add_sizes(text: &mut Text, version: u32, sizes: Sizes)
    requires { HasRoom 5 text.old }
    ensures text { Adds (if version == 1 then [] else sizes_word sizes ∷ []) text.old text.new }
    ensures short { GrowsBy 5 text.old text.new }
{
    if version != 1 {
        text.add_name(sizes_name(sizes));
    }
}

/// The word of page sizes.
fn sizes_name(sizes: Sizes) -> &'static str
    ensures word { result.now ≡ sizes_word sizes }
    ensures short { length result.now ≤ 4 }
{
    let has = |level| sizes.has(Size::at_level(level));
    match (has(1), has(2), has(3)) {
        (false, false, false) => "0",
        (true, false, false) => "01",
        (false, true, false) => "02",
        (false, false, true) => "03",
        (true, true, false) => "012",
        (true, false, true) => "013",
        (false, true, true) => "023",
        (true, true, true) => "0123",
    }
}

/// The line of a daemon.
fn line_of_daemon(daemon: Daemon) -> Text
    ensures { result.items ≡ line_of_words (daemon_words daemon) }
{
    let mut text = Text::new();
    text.put_name("daemon");
    text.add_counts(&[daemon.low, daemon.turns]);
    text.end();
    text
}

/// Adds the words of a call.
fn add_call(text: &mut Text, call: &Call)
    requires { HasRoom 100 text.old }
    ensures text { Adds (call_words call.now) text.old text.new }
    ensures short { GrowsBy 100 text.old text.new }
{
    match *call {
        Call::Map {
            space,
            page,
            length,
            kind,
            rights,
        } => {
            text.add("map", &[space, page, length]);
            text.add_name(kind_name(kind));
            text.add_name(rights_name(rights));
        }
        Call::Grow { space, page, by } => text.add("grow", &[space, page, by]),
        Call::Unmap { space, page } => text.add("unmap", &[space, page]),
        Call::Protect {
            space,
            page,
            length,
            rights,
        } => {
            text.add("protect", &[space, page, length]);
            text.add_name(rights_name(rights));
        }
        Call::Load { space, address } => {
            text.add("load", &[space]);
            text.add_number(address);
        }
        Call::Store {
            space,
            address,
            word,
        } => {
            text.add("store", &[space]);
            text.add_number(address);
            text.add_number(word);
        }
        Call::Sync { space, page } => text.add("sync", &[space, page]),
        Call::Evict { space, page } => text.add("evict", &[space, page]),
        Call::Discard {
            space,
            page,
            length,
        } => text.add("discard", &[space, page, length]),
        Call::Wire { space, page } => text.add("wire", &[space, page]),
        Call::Unwire { space, page } => text.add("unwire", &[space, page]),
    }
}

/// The word of a kind of region.
fn kind_name(kind: Kind) -> &'static str
    ensures word { result.now ≡ kind_word kind }
    ensures short { length result.now ≤ 7 }
{
    match kind {
        Kind::Fixed => "fixed",
        Kind::Growing => "growing",
        Kind::Wired => "wired",
    }
}

/// The word of rights.
fn rights_name(rights: Rights) -> &'static str
    ensures word { result.now ≡ rights_word rights }
    ensures short { length result.now ≤ 5 }
{
    match rights {
        Rights::NoAccess => "none",
        Rights::Read => "read",
        Rights::Write => "write",
    }
}
