//! The text of miss curves.

ghost use Rattle.std.specs.Prelude.{◌≡◌, ◌+◌, ◌^◌, ◌<◌, ◌≤◌, [], ◌∷◌, decimal, flat_map, length, OnOk, OnErr};
ghost use Rattle.std.specs.List.{range_with_len};
ghost use Rattle.io_core.specs.Faults.{one_more};
ghost use Rattle.pager_model.specs.TraceText.{line_of_words};
ghost use Rattle.report_text.specs.CurveText.{curve_line, curves_text};
ghost use Rattle.report_text.specs.Lines.{Gains, HasRoom};
ghost use Rattle.report_text.specs.Writing.{Puts, outgoing};
ghost use Rattle.report_text.specs.Written.{WroteAll, WrotePart};

use crate::text::{LONGEST, Text};
use crate::writing::Room;
use io_core::{Sink, WriteFailed};

/// Writes a line for each capacity from 1 on, with its misses by the tiles of a run and by base pages alone, and the end. After a failed write the
/// sink has taken a beginning of that.
///
/// It takes no memory.
pub fn write_curves<K: Sink>(sink: &mut K, tiles: &[u64], pages: &[u64]) -> Result<(), WriteFailed>
    requires { length pages.now ≡ length tiles.now }
    ensures whole { OnOk result (WroteAll (curves_text tiles.now pages.now) (K.taken sink.old) (K.taken sink.new)) }
    ensures part { OnErr result (WrotePart (curves_text tiles.now pages.now) (K.taken sink.old) (K.taken sink.new)) }
    ensures few_writes { K.writes sink.new ≤ K.writes sink.old + length (curves_text tiles.now pages.now) }
    ensures unfailed { OnOk result (K.faults sink.new ≡ K.faults sink.old) }
    ensures rose { OnErr result (K.faults sink.new ≡ one_more (K.faults sink.old)) }
{
    let mut room = Room::new();
    put_curves(&mut room, sink, tiles, pages)
}

/// Puts the whole text, and sends it.
fn put_curves<K: Sink>(
    room: &mut Room,
    sink: &mut K,
    tiles: &[u64],
    pages: &[u64],
) -> Result<(), WriteFailed>
    requires { length pages.now ≡ length tiles.now }
    ensures puts { Puts result
        (outgoing (K.taken sink.old) (K.writes sink.old) (K.faults sink.old) room.old.bytes.items)
        (outgoing (K.taken sink.new) (K.writes sink.new) (K.faults sink.new) room.new.bytes.items)
        (curves_text tiles.now pages.now) }
    ensures empty { OnOk result (room.new.bytes.items ≡ []) }
{
    put_capacities(room, sink, tiles, pages)?;
    room.finish(sink)
}

/// Puts a line for each capacity.
fn put_capacities<K: Sink>(
    room: &mut Room,
    sink: &mut K,
    tiles: &[u64],
    pages: &[u64],
) -> Result<(), WriteFailed>
    requires { length pages.now ≡ length tiles.now }
    ensures { Puts result
        (outgoing (K.taken sink.old) (K.writes sink.old) (K.faults sink.old) room.old.bytes.items)
        (outgoing (K.taken sink.new) (K.writes sink.new) (K.faults sink.new) room.new.bytes.items)
        (flat_map (curve_line tiles.now pages.now) (range_with_len 0 (length tiles.now))) }
{
    for place in 0..tiles.len() {
        put_capacity(room, sink, place, tiles[place], pages[place])?;
    }
    Ok(())
}

/// Puts the line of the capacity at a place, which has so many misses by tiles and by base pages.
#[tactic(auto, using(crate::proofs::SentBytes::into_room))]
fn put_capacity<K: Sink>(
    room: &mut Room,
    sink: &mut K,
    place: usize,
    tiles: u64,
    pages: u64,
) -> Result<(), WriteFailed>
    requires { place + 1 < 2 ^ 64 }
    ensures { Puts result
        (outgoing (K.taken sink.old) (K.writes sink.old) (K.faults sink.old) room.old.bytes.items)
        (outgoing (K.taken sink.new) (K.writes sink.new) (K.faults sink.new) room.new.bytes.items)
        (line_of_words (decimal (place + 1) ∷ decimal tiles ∷ decimal pages ∷ [])) }
{
    room.make_room(sink, LONGEST)?;
    write_capacity(&mut room.bytes, place, tiles, pages);
    Ok(())
}

/// Puts that line into a text.
fn write_capacity(text: &mut Text, place: usize, tiles: u64, pages: u64)
    requires place { place + 1 < 2 ^ 64 }
    requires room { HasRoom LONGEST text.old }
    ensures { Gains (line_of_words (decimal (place + 1) ∷ decimal tiles ∷ decimal pages ∷ [])) text.old text.new }
{
    text.put_number(place as u64 + 1);
    text.add_number(tiles);
    text.add_number(pages);
    text.end();
}
