//! The counts of a run that goes on.

ghost use Rattle.std.specs.Prelude.{◌≡◌, ◌+◌, ◌≤◌, OnOk, OnErr, length};
ghost use Rattle.io_core.specs.Faults.{one_more};
ghost use Rattle.report_text.specs.SoFarText.{so_far_text};
ghost use Rattle.report_text.specs.Written.{WroteAll, WrotePart};

use crate::summary_lines::put_counts;
use crate::text::Text;
use io_core::{Sink, WriteFailed, write_all};
use pager_model::Summary;

/// The counts of a run that goes on, after so many calls.
#[derive(Clone, Copy, Debug, PartialEq, Eq)]
pub struct SoFar {
    pub calls: u64,
    /// Of frames those that are so then, and of all else so many since the start.
    pub summary: Summary,
    /// How many pages gave their frame up.
    pub evictions: u64,
    /// How many calls were answered that they weren't done, for want of a frame, of memory or of a working store, or for a page whose frame was claimed.
    pub unserved: u64,
}

/// Writes the counts so far, in one line: `after`, the calls, the hits and misses, the promotions, demotions, preemptions and evictions, the frames
/// that are free, reserved and used, and the calls that weren't done. After a failed write the sink has taken a beginning of that.
///
/// It takes no memory, and keeps no byte back.
pub fn write_so_far<K: Sink>(sink: &mut K, so_far: &SoFar) -> Result<(), WriteFailed>
    ensures whole { OnOk result (WroteAll (so_far_text so_far.now) (K.taken sink.old) (K.taken sink.new)) }
    ensures part { OnErr result (WrotePart (so_far_text so_far.now) (K.taken sink.old) (K.taken sink.new)) }
    ensures few_writes { K.writes sink.new ≤ K.writes sink.old + length (so_far_text so_far.now) }
    ensures unfailed { OnOk result (K.faults sink.new ≡ K.faults sink.old) }
    ensures rose { OnErr result (K.faults sink.new ≡ one_more (K.faults sink.old)) }
{
    write_all(sink, text_of_so_far(so_far).as_bytes())
}

/// The line of the counts so far.
fn text_of_so_far(so_far: &SoFar) -> Text
    ensures { result.items ≡ so_far_text so_far.now }
{
    let mut text = Text::new();
    let summary = &so_far.summary;
    put_counts(
        &mut text,
        "after",
        &[
            so_far.calls,
            summary.hits,
            summary.misses,
            summary.promotions,
            summary.demotions,
            summary.preemptions,
            so_far.evictions,
            u64::from(summary.free),
            u64::from(summary.reserved),
            u64::from(summary.used),
            so_far.unserved,
        ],
    );
    text
}
