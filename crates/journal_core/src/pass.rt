ghost use Rattle.std.specs.Prelude.{◌≡◌, ◌-◌, ◌≤◌, ◌<◌, [], ◌∷◌, ◌++◌, length, vec_len, vec_capacity, count_by};
ghost use Rattle.journal_core.specs.Journals.{is_numbered_answer};
ghost use Rattle.journal_core.specs.Views.{most_entries};
ghost use Rattle.journal_core.specs.Seats.{pass_view, pass_of, IsPass};

use crate::view::Seat;
use pager_model::{Entry, Numbered, What};
use std::marker::Model;

/// A processor's entries, with the room for more.
#[derive(Drop)]
pub struct Log {
    pub processor: u32,
    pub answers: u32,
    pub entries: Vec<Numbered>,
    ghost counted: { answers ≡ count_by is_numbered_answer entries.items },
}

impl Log {
    /// None yet; the list is empty, and its capacity is the room.
    pub fn new(processor: u32, entries: Vec<Numbered>) -> Log
        requires { entries.items ≡ [] }
        ensures { (result.processor ≡ processor) × (result.entries ≡ entries) }
    {
        Log {
            processor,
            answers: 0,
            entries,
        }
    }

    /// Adds an entry behind the others.
    pub fn add(&mut self, number: u64, entry: Entry)
        requires room { vec_len self.old.entries < vec_capacity self.old.entries }
        requires most { vec_capacity self.old.entries ≤ most_entries }
        ensures entries { self.new.entries.items ≡ self.old.entries.items ++ record { number = number; entry = entry } ∷ [] }
        ensures room { vec_capacity self.new.entries ≡ vec_capacity self.old.entries }
        ensures processor { self.new.processor ≡ self.old.processor }
    {
        if let What::Answer { .. } = entry.what {
            self.answers += 1;
        }
        self.entries.push_reserved(Numbered { number, entry });
    }
}

/// The right to write a processor's entries, with those that it wrote.
#[derive(Drop)]
pub struct Pass {
    log: Log,
    seat: Seat,
}

impl Model for Pass {
    ghost use Rattle.std.specs.Prelude.{vec_capacity};
    ghost use Rattle.journal_core.specs.Journals.{PassState};

    ghost Value = { PassState };

    ghost use Rattle.journal_core.specs.Seats.{pass_of, IsPass};

    ghost view = { λ p. pass_of p.seat.table_id p.seat.me.0 p.log.processor p.log.entries.items (vec_capacity p.log.entries) };

    ghost invariant = { λ p. IsPass (pass_of p.seat.table_id p.seat.me.0 p.log.processor p.log.entries.items (vec_capacity p.log.entries)) p.seat.me };
}

impl Pass {
    pub(crate) fn of(log: Log, seat: Seat) -> Pass
        requires { IsPass (pass_of seat.table_id seat.me.0 log.processor log.entries.items (vec_capacity log.entries)) seat.me }
        ensures { result ≡ pass_of seat.table_id seat.me.0 log.processor log.entries.items (vec_capacity log.entries) }
    {
        Pass { log, seat }
    }

    pub(crate) fn into_parts(self) -> (Log, Seat)
        ensures log { (result.0.processor ≡ self.processor) × (result.0.entries.items ≡ self.entries) × (vec_capacity result.0.entries ≡ self.room) }
        ensures seat { (result.1.table_id ≡ self.journal.table) × (result.1.me ≡ (pass_view self, [])) }
        ensures pass { IsPass self result.1.me }
    {
        let Pass { log, seat } = self;
        (log, seat)
    }

    /// The number of its processor.
    pub fn processor(&self) -> u32
        ensures number { result ≡ self.now.processor }
        ensures known { result < length self.now.journal.setting.marks }
    {
        self.log.processor
    }

    /// The entries that it wrote, each with its place in the history.
    pub fn entries(&self) -> &[Numbered]
        ensures entries { result.now ≡ self.now.entries }
        ensures most { length self.now.entries ≤ most_entries }
    {
        self.log.entries.as_slice()
    }

    /// How many entries it has room for yet.
    pub fn spare(&self) -> usize
        ensures { result ≡ self.now.room - length self.now.entries }
    {
        self.log.entries.capacity() - self.log.entries.len()
    }

    /// How many of its entries are answers.
    pub fn answers(&self) -> u32
        ensures { result ≡ count_by is_numbered_answer self.now.entries }
    {
        self.log.answers
    }
}
