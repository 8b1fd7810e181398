//! The calls of a run, each as it is read.

ghost use Rattle.std.specs.Prelude.{◌≡◌, ℕ, ◌≤◌, [], IfSome, List, OnOk, OnErr, Option};
ghost use Rattle.io_core.specs.Faults.{one_more};
ghost use Rattle.line_source.specs.Lines.{seen};
ghost use Rattle.pager_model.specs.Stored.{Stored};
ghost use Rattle.report_text.specs.Written.{WroteAll};
ghost use Rattle.stream_core.specs.Streaming.{CanMake, IsAfter, IsNext};
ghost use Rattle.stream_core.specs.Tallies.{has_curves};
ghost use Rattle.trace_lines.specs.Heads.{IsInRange};
ghost use Rattle.trace_stream.specs.Streams.{HasOpening, OpensWith};
ghost use Rattle.stream_run.specs.Steps.{CallsEnd, StandsAt, WentOn, WentPart};
ghost use Rattle.stream_run.specs.Streams.{Course, ports, told_text};

use crate::run::Ending;
use crate::telling::{Telling, so_far_of};
use io_core::{Sink, Source, WriteFailed};
use line_source::Ahead;
use pager_model::Line;
use report_text::write_so_far;
use store_core::Store;
use stream_core::Stream;
use trace_stream::{Opening, next_call};

/// Makes the calls of the lines that are to come, up to the line `end`, and tells the counts so far in their turn. It answers where that ended:
/// it is done at the line `end`. It is proved to return, whatever the source has.
pub fn make_calls<T: Source, K: Sink, S: Store + Send + Drop>(
    opening: &Opening,
    ahead: &mut Ahead,
    source: &mut T,
    sink: &mut K,
    every: Option<u32>,
    stream: &mut Stream<S>,
) -> Ending
    requires range { IsInRange opening.now.head }
    requires opening { HasOpening opening.now.head opening.now.trace }
    requires some { IfSome every (λ n. 1 ≤ n) }
    requires can { (stores : List Stored) × IsAfter opening.now.trace stores [] [] stream.old }
    ensures ended { (left : Option (List ℕ)) (stores : List Stored) → IsAfter opening.now.trace stores [] [] stream.old
        → IfSome left (λ bytes. OpensWith bytes opening.now.trace (seen ahead.old (T.left source.old)))
        → CallsEnd S.lasts every opening.now.trace stores stream.new
        (ports left (T.faults source.old) (K.taken sink.old) (K.faults sink.old))
        (ports (T.left source.new) (T.faults source.new) (K.taken sink.new) (K.faults sink.new)) result }
    ensures asked { has_curves stream.new.tally ≡ has_curves stream.old.tally }
{
    let mut telling = Telling::of(every);
    'lines: loop {
        let line = match next_call(opening, stream.calls(), ahead, source) {
            Ok(Some(line)) => line,
            Ok(None) => return Ending::Done,
            Err(fault) => return Ending::Stopped(fault),
        };
        if let Err(WriteFailed) = make_line(line, stream, &mut telling, sink) {
            return Ending::WriteFault;
        }
    }
}

/// Makes a call, and writes the counts so far where they are told after it.
fn make_line<K: Sink, S: Store + Send + Drop>(
    line: Line,
    stream: &mut Stream<S>,
    telling: &mut Telling,
    sink: &mut K,
) -> Result<(), WriteFailed>
    requires can { CanMake stream.old line }
    requires left { IfSome telling.old.every (λ n. 1 ≤ telling.old.left) }
    ensures every { telling.new.every ≡ telling.old.every }
    ensures asked { has_curves stream.new.tally ≡ has_curves stream.old.tally }
    ensures on { OnOk result ((course : Course) (had : Option (List ℕ)) → StandsAt S.lasts telling.old course stream.old
        → IsNext course.script course.calls line → WroteAll (told_text course.told) had (K.taken sink.old)
        → WentOn S.lasts telling.new course line stream.new had (K.taken sink.new)) }
    ensures part { OnErr result ((course : Course) (had : Option (List ℕ)) → StandsAt S.lasts telling.old course stream.old
        → IsNext course.script course.calls line → WroteAll (told_text course.told) had (K.taken sink.old)
        → WentPart S.lasts telling.old.every course line stream.new had (K.taken sink.new)) }
    ensures unfailed { OnOk result (K.faults sink.new ≡ K.faults sink.old) }
    ensures rose { OnErr result (K.faults sink.new ≡ one_more (K.faults sink.old)) }
{
    stream.make(line);
    if !telling.is_due() {
        return Ok(());
    }
    write_so_far(sink, &so_far_of(stream))
}
