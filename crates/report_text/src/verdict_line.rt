//! The text of a verdict.

ghost use Rattle.std.specs.Prelude.{◌≡◌, ◌+◌, ◌≤◌, Some, None, OnOk, OnErr, length};
ghost use Rattle.io_core.specs.Faults.{one_more};
ghost use Rattle.report_text.specs.VerdictText.{verdict_text};
ghost use Rattle.report_text.specs.Written.{WroteAll, WrotePart};

use crate::text::Text;
use io_core::{Sink, WriteFailed, write_all};

/// Writes what a checker says of a history: yes, or no and this entry. After a failed write the sink has taken a beginning of that.
///
/// It takes no memory.
pub fn write_verdict<K: Sink>(sink: &mut K, bad: Option<u64>) -> Result<(), WriteFailed>
    ensures whole { OnOk result (WroteAll (verdict_text bad) (K.taken sink.old) (K.taken sink.new)) }
    ensures part { OnErr result (WrotePart (verdict_text bad) (K.taken sink.old) (K.taken sink.new)) }
    ensures few_writes { K.writes sink.new ≤ K.writes sink.old + length (verdict_text bad) }
    ensures unfailed { OnOk result (K.faults sink.new ≡ K.faults sink.old) }
    ensures rose { OnErr result (K.faults sink.new ≡ one_more (K.faults sink.old)) }
{
    let text = match bad {
        None => text_of_yes(),
        Some(entry) => text_of_no(entry),
    };
    write_all(sink, text.as_bytes())
}

/// What is said of a history that is legal.
fn text_of_yes() -> Text
    ensures { result.items ≡ verdict_text None }
{
    let mut text = Text::new();
    text.put(b"yes\n");
    text
}

/// What is said of a history whose first bad entry this is.
fn text_of_no(entry: u64) -> Text
    ensures { result.items ≡ verdict_text (Some entry) }
{
    let mut text = Text::new();
    text.put_name("no");
    text.add_number(entry);
    text.end();
    text
}
