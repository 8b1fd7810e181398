//! What closing a journal takes: all seats in one, and a merge by the entries' places.
ghost use Rattle.std.specs.Prelude.{◌≡◌, ◌+◌, ◌≤◌, ◌<◌, true, List, [], map, reverse, length, vec_len, vec_capacity};
ghost use Rattle.std.specs.List.{All, AllByRecursion};
ghost use Rattle.pager_model.specs.declared.entry.Numbered.{Numbered};
ghost use Rattle.journal_core.specs.Seats.{part_of, own_of};
ghost use Rattle.journal_core.specs.Places.{placed, placed_all, IsPlaced};
ghost use Rattle.journal_core.specs.Views.{word_count, Meets};

use crate::author::Author;
use crate::pass::{Log, Pass};
use crate::steps::{LENGTH, board};
use crate::view::{Order, Seat, View, Word};
use atomic_table::Table;
use pager_model::{Entry, Numbered, Setting, What};
use std::alloc::Global;

/// Takes in all authors.
pub fn board_authors(word: &Word, seat: &mut Seat, mut authors: Vec<Author>)
    requires table { (seat.old.table_id ≡ word.now.table_id) × (word.now.table_id.words ≡ word_count) }
    requires seat { (seat.old.me.0.live ≡ true) × (seat.old.me.0.authors ≡ []) × (seat.old.me.0.passes ≡ []) × (seat.old.me.1 ≡ []) }
    requires authors { All (λ a. a.journal.table ≡ word.now.table_id) authors.items }
    ensures { (seat.new.table_id ≡ seat.old.table_id) × (seat.new.me ≡ (record { live = true; setting = seat.old.me.0.setting; authors = map part_of (reverse authors.items); passes = [] }, [])) }
{
    while let Some(author) = authors.pop() {
        board(word, seat, author.into_seat());
    }
}

/// Takes in all passes. Their entries go into `logs`.
pub fn board_passes(
    word: &Word,
    seat: &mut Seat,
    mut passes: Vec<Pass>,
    logs: &mut Vec<Vec<Numbered>>,
)
    requires table { (seat.old.table_id ≡ word.now.table_id) × (word.now.table_id.words ≡ word_count) }
    requires seat { (seat.old.me.0.live ≡ true) × (seat.old.me.0.passes ≡ []) × (seat.old.me.1 ≡ []) }
    requires passes { All (λ p. p.journal.table ≡ word.now.table_id) passes.items }
    requires logs { (logs.old.items ≡ []) × (vec_len passes ≤ vec_capacity logs.old) }
    ensures seat { (seat.new.table_id ≡ seat.old.table_id) × (seat.new.me ≡ (record { live = true; setting = seat.old.me.0.setting; authors = seat.old.me.0.authors; passes = map own_of (reverse passes.items) }, [])) }
    ensures logs { map (λ v. v.items) logs.new.items ≡ map (λ p. p.entries) (reverse passes.items) }
    ensures rooms { AllByRecursion (λ p. length p.entries ≤ p.room) passes.items }
{
    while let Some(pass) = passes.pop() {
        let (log, other) = pass.into_parts();
        board(word, seat, other);
        let Log {
            processor: _,
            answers: _,
            entries,
        } = log;
        logs.push_reserved(entries);
    }
}

/// How long the history has become.
pub fn finish(table: Table<(), View, Setting, Order, Global>, seat: Seat) -> u64
    requires table { (seat.table_id ≡ table.shared.table_id) × (table.shared.table_id.words ≡ word_count) × (table.shared.table_id.slots ≡ 0) }
    requires live { seat.me.0.live ≡ true }
    ensures { Meets seat.me.0.setting result seat.me.0 }
{
    let closed = table.close_with(seat);
    let length = closed.word(LENGTH);
    closed.free();
    length
}

/// The entries of the logs, each at its place, in a list that has room for them.
pub fn merge(mut history: Vec<Numbered>, long: u64, logs: &[Vec<Numbered>]) -> Vec<Numbered>
    requires room { (vec_len history ≡ 0) × (long ≤ vec_capacity history) }
    requires places { All (λ v. IsPlaced long v.items) logs.now }
    ensures { (start : List Numbered) × (length start ≡ long) × (result.items ≡ placed_all start (map (λ v. v.items) logs.now)) }
{
    fill(&mut history, long);
    scatter_all(history.as_mut_slice(), logs);
    history
}

/// Makes the list so long.
fn fill(history: &mut Vec<Numbered>, long: u64)
    requires { (vec_len history.old ≡ 0) × (long ≤ vec_capacity history.old) }
    ensures { vec_len history.new ≡ long }
{
    for _place in 0..long {
        push_blank(history);
    }
}

/// Adds an entry that stands for none.
fn push_blank(history: &mut Vec<Numbered>)
    requires { vec_len history.old < vec_capacity history.old }
    ensures { (vec_len history.new ≡ vec_len history.old + 1) × (vec_capacity history.new ≡ vec_capacity history.old) }
{
    let entry = Entry {
        processor: 0,
        space: None,
        frames: false,
        what: What::Rest { short: false },
    };
    history.push_reserved(Numbered { number: 0, entry });
}

/// Puts each entry at its place.
fn scatter_all(history: &mut [Numbered], logs: &[Vec<Numbered>])
    requires { All (λ v. IsPlaced (length history.old) v.items) logs.now }
    ensures { history.new ≡ placed_all history.old (map (λ v. v.items) logs.now) }
{
    for log in logs {
        scatter(history, log);
    }
}

/// Puts each entry of a log at its number.
fn scatter(history: &mut [Numbered], log: &[Numbered])
    requires { IsPlaced (length history.old) log.now }
    ensures { history.new ≡ placed history.old log.now }
{
    for entry in log {
        history[entry.number as usize] = *entry;
    }
}
