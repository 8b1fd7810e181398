//! A history in memory: its entries in their order, each in less than half of the bytes that an `Entry` takes.
//!
//! The entries that most calls make are kept by a brief that has the fields of their kind alone. All others are kept whole.
#![tactic(auto)]

ghost use Rattle.std.specs.Prelude.{◌≡◌, ◌+◌, ◌^◌, ◌<◌, ◌≤◌, if◌then◌else◌, [], ◌∷◌, ◌++◌, length, option_and_then, slice_get, ◌==◌, IfNone, IfOk, IfSome};
ghost use Rattle.pager_model.specs.Counts.{hits_in, misses_in, is_hit_in, is_miss_in};
ghost use Rattle.pager_model.specs.Legal.{entries_in};
ghost use Rattle.run_history.specs.Answers.{answer_in, answer_of, answer_by};
ghost use Rattle.run_history.specs.Places.{IsFirstIn, NoneIn, is_by};

mod brief;

use brief::Brief;
use pager_model::{Answered, Entry, NoMemory, Numbered, What};
use std::alloc::Global;
use std::marker::Model;

/// How many answers of a history are hits, and how many are misses.
#[derive(Clone, Copy, Debug, PartialEq, Eq)]
pub struct Accesses {
    pub hits: u64,
    pub misses: u64,
}

/// The entries of a history, in their order.
///
/// Contracts see them with their places, and how many there may be in all.
#[derive(Drop)]
pub struct History {
    /// The first entries, as they were handed in.
    listed: Vec<Numbered>,
    /// A brief of each entry that was put behind them.
    briefs: Vec<Brief>,
    /// Those of these entries that their briefs don't say, whole.
    whole: Vec<Entry>,
    room: usize,
    accesses: Accesses,
}

impl Model for History {
    ghost use Rattle.run_history.specs.Kept.{Kept, items_in, IsKept, AreCounted};
    ghost use Rattle.std.specs.Prelude.{◌≤◌, vec_capacity};

    ghost Value = { Kept };

    ghost view = { λ h. record { items = items_in h.listed.items h.whole.items h.briefs.items; room = h.room } };

    ghost invariant = { λ h. IsKept h.whole.items h.briefs.items × (h.room ≤ vec_capacity h.briefs) × (h.room ≤ vec_capacity h.whole) × AreCounted h.accesses (items_in h.listed.items h.whole.items h.briefs.items) };
}

impl History {
    /// No entry, and room for so many.
    pub fn create(alloc: Global, room: usize) -> Result<History, NoMemory>
        ensures { IfOk result (λ history. history ≡ record { items = []; room = room }) }
    {
        Ok(History {
            listed: Vec::new(alloc),
            briefs: Vec::with_capacity(alloc, room)?,
            whole: Vec::with_capacity(alloc, room)?,
            room,
            accesses: Accesses { hits: 0, misses: 0 },
        })
    }

    /// These entries. It takes no memory, and has room for no others.
    pub fn of(listed: Vec<Numbered>) -> History
        ensures { result ≡ record { items = listed.items; room = 0 } }
    {
        let alloc = *listed.allocator();
        let accesses = accesses_in(&listed);
        History {
            listed,
            accesses,
            briefs: Vec::new(alloc),
            whole: Vec::new(alloc),
            room: 0,
        }
    }

    /// Puts an entry behind the others.
    pub fn push(&mut self, entry: &Entry)
        requires { length self.old.items < self.old.room }
        ensures { self.new ≡ record self.old { items = self.old.items ++ record { number = length self.old.items; entry = entry.now } ∷ [] } }
    {
        self.accesses.count(&entry.what);
        let brief = Brief::keep(entry, &mut self.whole);
        self.briefs.push_reserved(Brief { ..brief });
    }

    /// How many entries there are.
    pub fn len(&self) -> usize
        ensures { result ≡ length self.now.items }
    {
        self.listed.len() + self.briefs.len()
    }

    /// The entry at a place, where there is one.
    pub fn get(&self, place: usize) -> Option<Numbered>
        ensures { result ≡ slice_get self.now.items place }
    {
        if place < self.listed.len() {
            return self.listed.get(place).copied();
        }
        let brief = self.briefs.get(place - self.listed.len())?;
        Some(Numbered {
            number: place as u64,
            entry: brief.entry(&self.whole),
        })
    }

    /// The answer at a place, where one of the processor is there: the number of its call, and what that was answered.
    pub fn answer_by(&self, place: usize, processor: u32) -> Option<(u32, Answered)>
        ensures { result ≡ option_and_then (answer_by processor) (slice_get self.now.items place) }
    {
        if place < self.listed.len() {
            return answer_by(&self.listed[place].entry, processor);
        }
        let brief = self.briefs.get(place - self.listed.len())?;
        brief.answer_by(&self.whole, processor)
    }

    /// The first place from this one on with an entry of the processor. Of the entries before it nothing but their processors is looked at.
    pub fn next_by(&self, from: usize, processor: u32) -> Option<usize>
        ensures some { IfSome result (IsFirstIn (is_by processor) self.now.items from) }
        ensures none { IfNone result (NoneIn (is_by processor) self.now.items from (length self.now.items)) }

        // There are places behind it.
        ensures not_last { IfSome result (λ place. place + 1 < 2 ^ 64) }
    {
        if let Some(place) = next_entry(&self.listed, from, processor) {
            return Some(place);
        }
        let count = self.listed.len();
        let place = next_brief(&self.briefs, from.saturating_sub(count), processor)?;
        Some(count + place)
    }

    /// How many answers are hits, and how many are misses.
    pub fn accesses(&self) -> Accesses
        ensures hits { result.hits ≡ hits_in (entries_in self.now.items) }
        ensures misses { result.misses ≡ misses_in (entries_in self.now.items) }
    {
        self.accesses
    }
}

impl Accesses {
    /// Counts what happened, where it is an answer with a size.
    fn count(&mut self, what: &What)
        requires hits { self.old.hits + 1 < 2 ^ 64 }
        requires misses { self.old.misses + 1 < 2 ^ 64 }
        ensures hits { self.new.hits ≡ self.old.hits + (if is_hit_in what.now then 1 else 0) }
        ensures misses { self.new.misses ≡ self.old.misses + (if is_miss_in what.now then 1 else 0) }
    {
        let What::Answer { answered, .. } = what else {
            return;
        };
        if answered.size.is_none() {
            return;
        }
        if answered.hit {
            self.hits += 1;
        } else {
            self.misses += 1;
        }
    }
}

/// The first of these entries, from a place on, that the processor made.
fn next_entry(entries: &[Numbered], from: usize, processor: u32) -> Option<usize>
    ensures some { IfSome result (IsFirstIn (is_by processor) entries.now from) }
    ensures none { IfNone result (NoneIn (is_by processor) entries.now from (length entries.now)) }
{
    for place in from..entries.len() {
        if entries[place].entry.processor == processor {
            return Some(place);
        }
    }
    None
}

/// The first of these briefs, from a place on, whose entry the processor made.
fn next_brief(briefs: &[Brief], from: usize, processor: u32) -> Option<usize>
    ensures some { IfSome result (IsFirstIn (λ b. b.processor == processor) briefs.now from) }
    ensures none { IfNone result (NoneIn (λ b. b.processor == processor) briefs.now from (length briefs.now)) }
{
    for place in from..briefs.len() {
        if briefs[place].processor == processor {
            return Some(place);
        }
    }
    None
}

/// The hits and misses among entries.
fn accesses_in(entries: &[Numbered]) -> Accesses
    ensures hits { result.hits ≡ hits_in (entries_in entries.now) }
    ensures misses { result.misses ≡ misses_in (entries_in entries.now) }
{
    let mut accesses = Accesses { hits: 0, misses: 0 };
    for numbered in entries {
        accesses.count(&numbered.entry.what);
    }
    accesses
}

/// The number of the call that an entry answers, and the answer, where the entry is an answer of the processor.
fn answer_by(entry: &Entry, processor: u32) -> Option<(u32, Answered)>
    ensures { result ≡ answer_of processor entry.now }
{
    if entry.processor != processor {
        return None;
    }
    answer_in(&entry.what)
}

/// The number of the call that is answered, and the answer, where what happened is one.
fn answer_in(what: &What) -> Option<(u32, Answered)>
    ensures { result ≡ answer_in what.now }
{
    match *what {
        What::Answer {
            number,
            answered,
            ..
        } => Some((number, answered)),
        _ => None,
    }
}
