//! Texts on their way out, in pieces.

ghost use Rattle.std.specs.Prelude.{◌≡◌, ◌≤◌, [], ◌∷◌, OnOk, codes};
ghost use Rattle.pager_model.specs.TraceText.{line_of_words};
ghost use Rattle.report_text.specs.Lines.{Gains, HasRoom};
ghost use Rattle.report_text.specs.Writing.{Puts, outgoing};

use crate::text::{LONGEST, SIZE, Text};
use io_core::{Sink, WriteFailed, write_all};

/// Where bytes wait for a sink until there are enough of them for a piece.
#[derive(Drop)]
pub struct Room {
    /// What waits, behind which lines are put.
    pub bytes: Text,
}

impl Room {
    /// A room in which nothing waits.
    pub fn new() -> Room
        ensures { result.bytes.items ≡ [] }
    {
        Room { bytes: Text::new() }
    }

    /// Sends what waits.
    pub fn send<K: Sink>(&mut self, sink: &mut K) -> Result<(), WriteFailed>
        ensures puts { Puts result
            (outgoing (K.taken sink.old) (K.writes sink.old) (K.faults sink.old) self.old.bytes.items)
            (outgoing (K.taken sink.new) (K.writes sink.new) (K.faults sink.new) self.new.bytes.items)
            [] }
        ensures empty { OnOk result (self.new.bytes.items ≡ []) }
    {
        write_all(sink, self.bytes.as_bytes())?;
        self.bytes.clear();
        Ok(())
    }

    /// Ends a text by its last line, and sends what waits.
    pub fn finish<K: Sink>(&mut self, sink: &mut K) -> Result<(), WriteFailed>
        ensures puts { Puts result
            (outgoing (K.taken sink.old) (K.writes sink.old) (K.faults sink.old) self.old.bytes.items)
            (outgoing (K.taken sink.new) (K.writes sink.new) (K.faults sink.new) self.new.bytes.items)
            (line_of_words (codes "end" ∷ [])) }
        ensures empty { OnOk result (self.new.bytes.items ≡ []) }
    {
        self.make_room(sink, LONGEST)?;
        put_last(&mut self.bytes);
        self.send(sink)
    }

    /// Makes room for so many bytes: those that wait go out where there isn't.
    pub fn make_room<K: Sink>(&mut self, sink: &mut K, more: usize) -> Result<(), WriteFailed>
        requires { more ≤ SIZE }
        ensures puts { Puts result
            (outgoing (K.taken sink.old) (K.writes sink.old) (K.faults sink.old) self.old.bytes.items)
            (outgoing (K.taken sink.new) (K.writes sink.new) (K.faults sink.new) self.new.bytes.items)
            [] }
        ensures room { OnOk result (HasRoom more self.new.bytes) }
    {
        if self.bytes.has_room(more) {
            Ok(())
        } else {
            self.send(sink)
        }
    }

    /// Adds what a text has.
    #[tactic(auto, using(crate::proofs::SentBytes::into_room))]
    pub fn put_line<K: Sink>(&mut self, sink: &mut K, line: &Text) -> Result<(), WriteFailed>
        ensures { Puts result
            (outgoing (K.taken sink.old) (K.writes sink.old) (K.faults sink.old) self.old.bytes.items)
            (outgoing (K.taken sink.new) (K.writes sink.new) (K.faults sink.new) self.new.bytes.items)
            line.now.items }
    {
        let bytes = line.as_bytes();
        self.make_room(sink, bytes.len())?;
        self.bytes.put(bytes);
        Ok(())
    }
}

/// Puts the line that ends a text.
fn put_last(text: &mut Text)
    requires { HasRoom LONGEST text.old }
    ensures { Gains (line_of_words (codes "end" ∷ [])) text.old text.new }
{
    text.put(b"end\n");
}
