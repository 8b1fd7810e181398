//! A whole log, line by line.

ghost use Rattle.std.specs.Prelude.{◌≡◌, ◌+◌, ◌-◌, ◌^◌, ◌<◌, ◌≤◌, ℕ, false, if◌then◌else◌, [], ◌∷◌, IfErr, IfOk, List, OnOk, Option, flat_map, length, take};
ghost use Rattle.pager_model.specs.TraceText.{call_line, first_line, text_of};
ghost use Rattle.report_text.specs.Writing.{Puts, outgoing};
ghost use Rattle.lackey_layout.specs.Places.{Keeps};
ghost use Rattle.lackey_regions.specs.LineCalls.{MadeAt};
ghost use Rattle.from_lackey.specs.Converted.{Converted, Stopped, StopsReading, ports, text_so_far, trace_of};
ghost use Rattle.from_lackey.specs.LineWords.{line_words};
ghost use Rattle.from_lackey.specs.Log.{Passed};
ghost use Rattle.from_lackey.specs.Taken.{HasFullSpace, IsOfLog, IsRefusedAt, Took};

use crate::counts::Counts;
use crate::lines::{Became, add_line};
use crate::log::{Log, Taken};
use crate::options::Options;
use crate::stop::Stop;
use io_core::{Sink, Source, WriteFailed};
use lackey_regions::Memory;
use line_source::{LONGEST, Next};
use pager_model::{Line, Trace};
use report_text::Room;
use std::alloc::{AllocError, Global};
use trace_make::{line_of_first, put_calls};

/// Writes the text of a trace of what a source tells, as it is read. Where it stops, some bytes of the text so far may wait still. It is proved to return,
/// whatever the source has.
pub fn convert<T: Source, K: Sink>(
    alloc: Global,
    options: Options,
    source: &mut T,
    sink: &mut K,
) -> Result<Counts, Stop>
    ensures whole { IfOk result (λ counts. Converted (λ calls. text_of (trace_of options.frames options.sizes calls)) options.instructions
        (ports (T.left source.old) (T.faults source.old) (outgoing (K.taken sink.old) (K.writes sink.old) (K.faults sink.old) []))
        (ports (T.left source.new) (T.faults source.new) (outgoing (K.taken sink.new) (K.writes sink.new) (K.faults sink.new) []))
        counts.lines) }
    ensures stopped { IfErr result (λ stop. (waiting : List ℕ)
        × Stopped (text_so_far options.frames options.sizes) (λ calls. text_of (trace_of options.frames options.sizes calls)) options.instructions
        (ports (T.left source.old) (T.faults source.old) (outgoing (K.taken sink.old) (K.writes sink.old) (K.faults sink.old) []))
        (ports (T.left source.new) (T.faults source.new) (outgoing (K.taken sink.new) (K.writes sink.new) (K.faults sink.new) waiting)) stop) }
{
    let instructions = options.instructions;
    let mut room = Room::new();
    put_first(alloc, options, &mut room, sink)?;
    let mut converter = Converter::new(alloc, instructions)?;
    converter.put_lines(&mut room, source, sink)?;
    room.finish(sink)?;
    Ok(converter.counts)
}

/// Puts the first line of a trace.
fn put_first<K: Sink>(
    alloc: Global,
    options: Options,
    room: &mut Room,
    sink: &mut K,
) -> Result<(), WriteFailed>
    ensures { Puts result
        (outgoing (K.taken sink.old) (K.writes sink.old) (K.faults sink.old) room.old.bytes.items)
        (outgoing (K.taken sink.new) (K.writes sink.new) (K.faults sink.new) room.new.bytes.items)
        (first_line (trace_of options.frames options.sizes [])) }
{
    room.put_line(sink, &line_of_first(&empty_trace(alloc, options)))
}

/// A trace without calls, of one processor and one space.
#[tactic(auto, using(crate::proofs::EmptyTraces::has_text))]
fn empty_trace(alloc: Global, options: Options) -> Trace
    ensures { result ≡ trace_of options.frames options.sizes [] }
{
    Trace::of(
        3,
        options.frames,
        1,
        1,
        options.sizes,
        None,
        Vec::new(alloc),
    )
}

/// What is known of the lines that were read, and the calls of the last one.
#[derive(Drop)]
struct Converter {
    memory: Memory,
    instructions: bool,
    counts: Counts,
    calls: Vec<Line>,
}

impl Converter {
    /// No line was read.
    fn new(alloc: Global, instructions: bool) -> Result<Converter, AllocError>
        ensures instructions { IfOk result (λ converter. converter.instructions ≡ instructions) }
        ensures none { IfOk result (λ converter. converter.counts.lines ≡ 0) }
    {
        Ok(Converter {
            memory: Memory::new(alloc)?,
            instructions,
            counts: Counts::default(),
            calls: Vec::new(alloc),
        })
    }

    /// Puts the calls of each line of a source.
    fn put_lines<T: Source, K: Sink>(
        &mut self,
        room: &mut Room,
        source: &mut T,
        sink: &mut K,
    ) -> Result<(), Stop>
        requires none { self.old.counts.lines ≡ 0 }
        ensures whole { OnOk result (Converted (flat_map call_line) self.old.instructions
            (ports (T.left source.old) (T.faults source.old) (outgoing (K.taken sink.old) (K.writes sink.old) (K.faults sink.old) room.old.bytes.items))
            (ports (T.left source.new) (T.faults source.new) (outgoing (K.taken sink.new) (K.writes sink.new) (K.faults sink.new) room.new.bytes.items))
            self.new.counts.lines) }
        ensures stopped { IfErr result (Stopped (flat_map call_line) (flat_map call_line) self.old.instructions
            (ports (T.left source.old) (T.faults source.old) (outgoing (K.taken sink.old) (K.writes sink.old) (K.faults sink.old) room.old.bytes.items))
            (ports (T.left source.new) (T.faults source.new) (outgoing (K.taken sink.new) (K.writes sink.new) (K.faults sink.new) room.new.bytes.items))) }
        ensures full { IfErr result (HasFullSpace self.new.memory) }
    {
        let mut log = Log::new();
        for _looks in 0..u64::MAX {
            let taken = self.take_next(&mut log, source)?;
            put_calls(room, sink, self.calls.as_slice())?;
            match taken {
                Taken::Part => {}
                Taken::All => return Ok(()),
            }
        }
        Err(Stop::TooLong)
    }

    /// Takes the next line, or a piece of one that is too long: makes the calls that it becomes those that are there, and counts it.
    fn take_next<T: Source>(&mut self, log: &mut Log, source: &mut T) -> Result<Taken, Stop>
        ensures took { IfOk result (λ taken. (n : ℕ) (before : Option (List ℕ)) (lines : List (List ℕ))
            → Passed n before lines log.old.long log.old.ahead (T.left source.old)
            → Took taken n before lines log.new (T.left source.new) self.old self.new) }
        ensures unfailed { IfOk result (λ taken. T.faults source.new ≡ T.faults source.old) }
        ensures stopped { IfErr result (λ stop. (n : ℕ) (before : Option (List ℕ)) (lines : List (List ℕ))
            → Passed n before lines log.old.long log.old.ahead (T.left source.old)
            → length lines ≡ self.old.counts.lines → length lines < 2 ^ 64 - 1
            → StopsReading self.new.memory.layout lines before (T.left source.new) (T.faults source.old) (T.faults source.new) stop) }
        ensures of_log { IfErr result IsOfLog }
        ensures keeps { Keeps self.old.memory.layout self.new.memory.layout }
        ensures same { self.new.instructions ≡ self.old.instructions }
        ensures full { IfErr result (HasFullSpace self.new.memory) }
    {
        match log.ahead.look(source)? {
            Next::Line(count) => {
                self.take_front(log, count)?;
                log.ahead.pass(count + 1);
                log.long = false;
                Ok(Taken::Part)
            }
            Next::Long => {
                self.calls.clear();
                log.ahead.pass(LONGEST + 1);
                log.long = true;
                Ok(Taken::Part)
            }
            Next::Rest(count) => {
                if count == 0 && !log.long {
                    self.calls.clear();
                    return Ok(Taken::All);
                }
                self.take_front(log, count)?;
                Ok(Taken::All)
            }
        }
    }

    /// Takes the line that so many bytes end, which are the first that are ahead. One that is too long becomes nothing.
    fn take_front(&mut self, log: &Log, count: usize) -> Result<(), Stop>
        requires { count ≤ length log.now.ahead }
        ensures made { OnOk result (MadeAt self.new.memory.layout [] self.new.calls.items
            (if log.now.long then [] else line_words self.old.instructions (take count log.now.ahead))) }
        ensures counted { OnOk result (self.old.counts.lines < 2 ^ 64 - 1 → self.new.counts.lines ≡ self.old.counts.lines + 1) }
        ensures refused { IfErr result (IsRefusedAt self.old.counts.lines self.new.memory.layout log.now.long (take count log.now.ahead)) }
        ensures keeps { Keeps self.old.memory.layout self.new.memory.layout }
        ensures same { self.new.instructions ≡ self.old.instructions }
        ensures full { IfErr result (HasFullSpace self.new.memory) }
    {
        if log.long {
            self.calls.clear();
            self.pass_line();
            return Ok(());
        }
        self.take_line(log.ahead.front(count))
    }

    /// Makes the calls that a line becomes those that are there, and counts them.
    fn take_line(&mut self, line: &[u8]) -> Result<(), Stop>
        ensures made { OnOk result (MadeAt self.new.memory.layout [] self.new.calls.items (line_words self.old.instructions line.now)) }
        ensures counted { OnOk result (self.old.counts.lines < 2 ^ 64 - 1 → self.new.counts.lines ≡ self.old.counts.lines + 1) }
        ensures refused { IfErr result (IsRefusedAt self.old.counts.lines self.new.memory.layout false line.now) }
        ensures keeps { Keeps self.old.memory.layout self.new.memory.layout }
        ensures same { self.new.instructions ≡ self.old.instructions }
        ensures full { IfErr result (HasFullSpace self.new.memory) }
    {
        self.calls.clear();
        let before = self.counts.calls();
        match add_line(
            &mut self.memory,
            self.instructions,
            line,
            before,
            &mut self.calls,
        ) {
            Ok(Became::Calls) => self.counts.lines = self.counts.lines.saturating_add(1),
            Ok(Became::Nothing) => self.pass_line(),
            Err(refusal) => {
                return Err(Stop::Line {
                    number: self.counts.lines.saturating_add(1),
                    refusal,
                });
            }
        }
        self.counts.add(self.calls.as_slice());
        Ok(())
    }

    /// Counts a line that becomes nothing.
    fn pass_line(&mut self)
        ensures counted { self.old.counts.lines < 2 ^ 64 - 1 → self.new.counts.lines ≡ self.old.counts.lines + 1 }
        ensures memory { self.new.memory ≡ self.old.memory }
        ensures calls { self.new.calls.items ≡ self.old.calls.items }
        ensures same { self.new.instructions ≡ self.old.instructions }
    {
        self.counts.lines = self.counts.lines.saturating_add(1);
        self.counts.skipped = self.counts.skipped.saturating_add(1);
    }
}
