//! The words of answers and of entries.

ghost use Rattle.std.specs.Prelude.{◌≡◌, ◌≤◌, [], ◌∷◌, codes, decimal, length};
ghost use Rattle.pager_model.specs.PrintedText.{answered_words, flag_word, history_line, hit_word, need_words, reply_words, size_words, want_words, what_words, writing_word, written_word};
ghost use Rattle.pager_model.specs.TraceText.{line_of_words};
ghost use Rattle.report_text.specs.Lines.{Adds, Gains, GrowsBy, HasRoom};

use crate::text::{LONGEST, Text};
use pager_model::{Answered, Need, Numbered, Reply, Want, What};

/// Puts the line of an entry of the history: its number, its processor, the parts that it names, and what happened.
pub fn put_entry(text: &mut Text, numbered: &Numbered)
    requires { HasRoom LONGEST text.old }
    ensures { Gains (history_line numbered.now) text.old text.new }
{
    let entry = &numbered.entry;
    text.put_number(numbered.number);
    text.add_number(u64::from(entry.processor));
    text.add_parts(entry.space, entry.frames);
    add_what(text, &entry.what);
    text.end();
}

/// Puts the line of an answer: its processor, the call's number, and the answer.
pub fn put_answer(text: &mut Text, processor: u32, number: u32, answered: &Answered)
    requires { HasRoom LONGEST text.old }
    ensures { Gains (line_of_words (decimal processor ∷ decimal number ∷ answered_words answered.now)) text.old text.new }
{
    text.put_number(u64::from(processor));
    text.add_number(u64::from(number));
    add_answered(text, answered);
    text.end();
}

/// Adds what happened: its name, and its fields.
fn add_what(text: &mut Text, what: &What)
    requires { HasRoom 126 text.old }
    ensures text { Adds (what_words what.now) text.old text.new }
    ensures short { GrowsBy 126 text.old text.new }
{
    match *what {
        What::Answer {
            number,
            answered,
            ..
        } => add_answer(text, number, &answered),
        What::Out { page, written } => add_out(text, page, written),
        What::Failed {
            page,
            writing,
            count,
        } => add_failed(text, page, writing, count),
        What::Take { page, frame, want } => add_placed(text, "take", page, frame, &want),
        What::Give { page, frame } => text.add("give", &[page, frame]),
        What::Clear { first, length } => text.add("clear", &[first, length]),
        What::Claim {
            space,
            page,
            frame,
            need,
        } => add_claim(text, space, page, frame, &need),
        What::UseHeld { page, frame, want } => add_placed(text, "use", page, frame, &want),
        What::DropHeld { frame } => text.add("drop", &[frame]),
        What::Got { frame } => text.add("got", &[frame]),
        What::Unclaim { frame } => text.add("unclaim", &[frame]),
        What::Refused {
            wired,
            claimed,
            held,
        } => text.add("refused", &[wired, claimed, held]),
        What::Pin {
            first,
            length,
            wired,
        } => add_pin(text, first, length, wired),
        What::Kept {
            first,
            length,
            page,
            frame,
        } => text.add("kept", &[first, length, page, frame]),
        What::Rest { short } => add_rest(text, short),
    }
}

/// Adds the words of an answer in the history.
fn add_answer(text: &mut Text, number: u32, answered: &Answered)
    requires { HasRoom 126 text.old }
    ensures text { Adds (codes "answer" ∷ decimal number ∷ answered_words answered.now) text.old text.new }
    ensures short { GrowsBy 126 text.old text.new }
{
    text.add("answer", &[number]);
    add_answered(text, answered);
}

/// Adds the words of a page that went out.
fn add_out(text: &mut Text, page: u32, written: bool)
    requires { HasRoom 126 text.old }
    ensures text { Adds (codes "out" ∷ decimal page ∷ written_word written ∷ []) text.old text.new }
    ensures short { GrowsBy 126 text.old text.new }
{
    text.add("out", &[page]);
    text.add_name(found(written));
}

/// Adds the words of a failure of the store.
fn add_failed(text: &mut Text, page: u32, writing: bool, times: u64)
    requires { HasRoom 126 text.old }
    ensures text { Adds (codes "failed" ∷ decimal page ∷ writing_word writing ∷ decimal times ∷ []) text.old text.new }
    ensures short { GrowsBy 126 text.old text.new }
{
    text.add("failed", &[page]);
    text.add_name(side(writing));
    text.add_number(times);
}

/// Adds the words of a page that got a frame.
fn add_placed(text: &mut Text, name: &str, page: u32, frame: u32, want: &Want)
    requires room { HasRoom 126 text.old }
    requires short { length name.now ≤ 4 }
    ensures text { Adds (name.now ∷ decimal page ∷ decimal frame ∷ want_words want.now) text.old text.new }
    ensures short { GrowsBy 126 text.old text.new }
{
    text.add(name, &[page, frame, want.low, want.high, want.cap]);
    text.add_name(flag(want.wired));
}

/// Adds the words of a claim.
fn add_claim(text: &mut Text, space: u32, page: u32, frame: u32, need: &Option<Need>)
    requires { HasRoom 126 text.old }
    ensures text { Adds (codes "claim" ∷ decimal space ∷ decimal page ∷ decimal frame ∷ need_words need.now) text.old text.new }
    ensures short { GrowsBy 126 text.old text.new }
{
    text.add("claim", &[space, page, frame]);
    add_need(text, need);
}

/// Adds what a claim is for.
fn add_need(text: &mut Text, need: &Option<Need>)
    requires { HasRoom 31 text.old }
    ensures text { Adds (need_words need.now) text.old text.new }
    ensures short { GrowsBy 31 text.old text.new }
{
    if let Some(need) = need {
        text.add("for", &[need.page]);
        text.add_name(side(need.writing));
    }
}

/// Adds the words of pages whose frames were wired, or were no longer.
fn add_pin(text: &mut Text, first: u32, length: u32, wired: bool)
    requires { HasRoom 126 text.old }
    ensures text { Adds (codes "pin" ∷ decimal first ∷ decimal length ∷ flag_word wired ∷ []) text.old text.new }
    ensures short { GrowsBy 126 text.old text.new }
{
    text.add("pin", &[first, length]);
    text.add_name(flag(wired));
}

/// Adds the words of a daemon that rests.
fn add_rest(text: &mut Text, short: bool)
    requires { HasRoom 126 text.old }
    ensures text { Adds (codes "rest" ∷ flag_word short ∷ []) text.old text.new }
    ensures short { GrowsBy 126 text.old text.new }
{
    text.add_name("rest");
    text.add_name(flag(short));
}

/// Adds the words of an answer: its reply, and where it has a size whether it was a hit, and the size.
fn add_answered(text: &mut Text, answered: &Answered)
    requires { HasRoom 98 text.old }
    ensures text { Adds (answered_words answered.now) text.old text.new }
    ensures short { GrowsBy 98 text.old text.new }
{
    add_reply(text, &answered.reply);
    add_size(text, answered);
}

/// Adds hit or miss, and the size, where there is one.
fn add_size(text: &mut Text, answered: &Answered)
    requires { HasRoom 26 text.old }
    ensures text { Adds (size_words answered.now.hit answered.now.size) text.old text.new }
    ensures short { GrowsBy 26 text.old text.new }
{
    if let Some(size) = answered.size {
        text.add(hit_or_miss(answered.hit), &[u32::from(size.level())]);
    }
}

/// Adds the words of a reply: its name, and its numbers.
fn add_reply(text: &mut Text, reply: &Reply)
    requires { HasRoom 72 text.old }
    ensures text { Adds (reply_words reply.now) text.old text.new }
    ensures short { GrowsBy 72 text.old text.new }
{
    match *reply {
        Reply::Done => text.add_name("done"),
        Reply::Value(word) => add_value(text, word),
        Reply::Clean => text.add_name("clean"),
        Reply::Written => text.add_name("written"),
        Reply::Unmapped => text.add_name("unmapped"),
        Reply::Denied => text.add_name("denied"),
        Reply::Overlap => text.add_name("overlap"),
        Reply::OutOfSpace => text.add_name("outofspace"),
        Reply::NotGrowing => text.add_name("notgrowing"),
        Reply::RegionsFull => text.add_name("regionsfull"),
        Reply::NoFrames {
            wired,
            claimed,
            held,
        } => text.add("noframes", &[wired, claimed, held]),
        Reply::StoreFault { space, count } => add_store_fault(text, space, count),
        Reply::NoMemory => text.add_name("nomemory"),
        Reply::Busy { page } => text.add("busy", &[page]),
    }
}

/// Adds the words of a word that was read.
fn add_value(text: &mut Text, word: u64)
    requires { HasRoom 72 text.old }
    ensures text { Adds (codes "value" ∷ decimal word ∷ []) text.old text.new }
    ensures short { GrowsBy 72 text.old text.new }
{
    text.add_name("value");
    text.add_number(word);
}

/// Adds the words of a fault of a space's store.
fn add_store_fault(text: &mut Text, space: u32, times: u64)
    requires { HasRoom 72 text.old }
    ensures text { Adds (codes "storefault" ∷ decimal space ∷ decimal times ∷ []) text.old text.new }
    ensures short { GrowsBy 72 text.old text.new }
{
    text.add("storefault", &[space]);
    text.add_number(times);
}

/// Whether a translation was there.
fn hit_or_miss(hit: bool) -> &'static str
    ensures text { result.now ≡ hit_word hit }
    ensures short { length result.now ≤ 4 }
{
    if hit { "hit" } else { "miss" }
}

/// Whether the store was written or read.
fn side(writing: bool) -> &'static str
    ensures text { result.now ≡ writing_word writing }
    ensures short { length result.now ≤ 5 }
{
    if writing { "write" } else { "read" }
}

/// What a page was found to be.
fn found(written: bool) -> &'static str
    ensures text { result.now ≡ written_word written }
    ensures short { length result.now ≤ 7 }
{
    if written { "written" } else { "clean" }
}

/// Whether something holds, as 1 or 0.
fn flag(holds: bool) -> &'static str
    ensures text { result.now ≡ flag_word holds }
    ensures short { length result.now ≤ 1 }
{
    if holds { "1" } else { "0" }
}
