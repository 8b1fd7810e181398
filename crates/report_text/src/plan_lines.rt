//! The text of a plan.

ghost use Rattle.std.specs.Prelude.{◌≡◌, ◌+◌, ◌≤◌, [], ◌∷◌, ◌++◌, OnOk, OnErr, codes, flat_map, length};
ghost use Rattle.io_core.specs.Faults.{one_more};
ghost use Rattle.pager_model.specs.TraceText.{line_of_words};
ghost use Rattle.report_text.specs.Lines.{Gains, HasRoom};
ghost use Rattle.report_text.specs.PlanText.{extent_line, page_line, plan_text, planned_lines};
ghost use Rattle.report_text.specs.Writing.{Puts, outgoing};
ghost use Rattle.report_text.specs.Written.{WroteAll, WrotePart};

use crate::text::{LONGEST, Text};
use crate::writing::Room;
use contiguity_plan::{PageOf, Plan};
use io_core::{Sink, WriteFailed};

/// Writes a plan: which extent is to be emptied and how many pages that evicts, or that there is none; then a line for each page; then the end.
/// After a failed write the sink has taken a beginning of that.
///
/// It takes no memory.
pub fn write_plan<K: Sink>(sink: &mut K, plan: &Option<Plan>) -> Result<(), WriteFailed>
    ensures whole { OnOk result (WroteAll (plan_text plan.now) (K.taken sink.old) (K.taken sink.new)) }
    ensures part { OnErr result (WrotePart (plan_text plan.now) (K.taken sink.old) (K.taken sink.new)) }
    ensures few_writes { K.writes sink.new ≤ K.writes sink.old + length (plan_text plan.now) }
    ensures unfailed { OnOk result (K.faults sink.new ≡ K.faults sink.old) }
    ensures rose { OnErr result (K.faults sink.new ≡ one_more (K.faults sink.old)) }
{
    let mut room = Room::new();
    put_plan(&mut room, sink, plan)
}

/// Puts the whole text, and sends it.
fn put_plan<K: Sink>(room: &mut Room, sink: &mut K, plan: &Option<Plan>) -> Result<(), WriteFailed>
    ensures puts { Puts result
        (outgoing (K.taken sink.old) (K.writes sink.old) (K.faults sink.old) room.old.bytes.items)
        (outgoing (K.taken sink.new) (K.writes sink.new) (K.faults sink.new) room.new.bytes.items)
        (plan_text plan.now) }
    ensures empty { OnOk result (room.new.bytes.items ≡ []) }
{
    put_planned(room, sink, plan)?;
    room.finish(sink)
}

/// Puts what is planned, or that there is nothing.
fn put_planned<K: Sink>(
    room: &mut Room,
    sink: &mut K,
    plan: &Option<Plan>,
) -> Result<(), WriteFailed>
    ensures { Puts result
        (outgoing (K.taken sink.old) (K.writes sink.old) (K.faults sink.old) room.old.bytes.items)
        (outgoing (K.taken sink.new) (K.writes sink.new) (K.faults sink.new) room.new.bytes.items)
        (planned_lines plan.now) }
{
    match plan {
        Some(plan) => put_extent(room, sink, plan),
        None => put_none(room, sink),
    }
}

/// Puts the line of an extent, and those of its pages.
fn put_extent<K: Sink>(room: &mut Room, sink: &mut K, plan: &Plan) -> Result<(), WriteFailed>
    ensures { Puts result
        (outgoing (K.taken sink.old) (K.writes sink.old) (K.faults sink.old) room.old.bytes.items)
        (outgoing (K.taken sink.new) (K.writes sink.new) (K.faults sink.new) room.new.bytes.items)
        (extent_line plan.now ++ flat_map page_line plan.now.pages.items) }
{
    put_first(room, sink, plan)?;
    put_pages(room, sink, plan.pages.as_slice())
}

/// Puts a line for each page.
fn put_pages<K: Sink>(room: &mut Room, sink: &mut K, pages: &[PageOf]) -> Result<(), WriteFailed>
    ensures { Puts result
        (outgoing (K.taken sink.old) (K.writes sink.old) (K.faults sink.old) room.old.bytes.items)
        (outgoing (K.taken sink.new) (K.writes sink.new) (K.faults sink.new) room.new.bytes.items)
        (flat_map page_line pages.now) }
{
    for page in pages {
        put_page(room, sink, page)?;
    }
    Ok(())
}

/// Puts the line of an extent, and of how many pages are to be evicted.
#[tactic(auto, using(crate::proofs::SentBytes::into_room))]
fn put_first<K: Sink>(room: &mut Room, sink: &mut K, plan: &Plan) -> Result<(), WriteFailed>
    ensures { Puts result
        (outgoing (K.taken sink.old) (K.writes sink.old) (K.faults sink.old) room.old.bytes.items)
        (outgoing (K.taken sink.new) (K.writes sink.new) (K.faults sink.new) room.new.bytes.items)
        (extent_line plan.now) }
{
    room.make_room(sink, LONGEST)?;
    write_extent(&mut room.bytes, plan);
    Ok(())
}

/// Puts that line into a text.
fn write_extent(text: &mut Text, plan: &Plan)
    requires { HasRoom LONGEST text.old }
    ensures { Gains (extent_line plan.now) text.old text.new }
{
    text.put_name("plan");
    text.add_counts(&[plan.extent.first]);
    text.add_number(plan.pages.len() as u64);
    text.end();
}

/// Puts the line that says that nothing is planned.
#[tactic(auto, using(crate::proofs::SentBytes::into_room))]
fn put_none<K: Sink>(room: &mut Room, sink: &mut K) -> Result<(), WriteFailed>
    ensures { Puts result
        (outgoing (K.taken sink.old) (K.writes sink.old) (K.faults sink.old) room.old.bytes.items)
        (outgoing (K.taken sink.new) (K.writes sink.new) (K.faults sink.new) room.new.bytes.items)
        (line_of_words (codes "plan" ∷ codes "none" ∷ [])) }
{
    room.make_room(sink, LONGEST)?;
    room.bytes.put(b"plan none\n");
    Ok(())
}

/// Puts the line of a page.
#[tactic(auto, using(crate::proofs::SentBytes::into_room))]
fn put_page<K: Sink>(room: &mut Room, sink: &mut K, page: &PageOf) -> Result<(), WriteFailed>
    ensures { Puts result
        (outgoing (K.taken sink.old) (K.writes sink.old) (K.faults sink.old) room.old.bytes.items)
        (outgoing (K.taken sink.new) (K.writes sink.new) (K.faults sink.new) room.new.bytes.items)
        (page_line page.now) }
{
    room.make_room(sink, LONGEST)?;
    write_page(&mut room.bytes, page);
    Ok(())
}

/// Puts that line into a text.
fn write_page(text: &mut Text, page: &PageOf)
    requires { HasRoom LONGEST text.old }
    ensures { Gains (page_line page.now) text.old text.new }
{
    text.put_number(u64::from(page.space));
    text.add_counts(&[page.page]);
    text.end();
}
