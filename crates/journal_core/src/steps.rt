//! The steps on the journal's word: authors and passes board a seat and alight from it, and a seat enters, looks and commits.
ghost use Rattle.std.specs.Prelude.{◌≡◌, true, []};
ghost use Rattle.journal_core.specs.Views.{word_count, Meets, MayGrow, first_author, without_author, first_pass, without_pass, joined, grown, rest_view};

use crate::view::{Both, Commit, Enter, FirstAuthor, FirstPass, Look, Naming, Seat, Word};
use pager_model::Entry;
use std::marker::Brand;

/// How many words the journal has.
pub const WORDS: usize = 32;

/// Which of them is the length of the history. The others stay 0: they keep it in a cache line of its own, apart from the first, which is read
/// where a seat boards or alights.
pub const LENGTH: usize = 16;

/// A new seat, with no author and no pass.
pub fn enter(word: &Word) -> Seat
    requires { word.now.table_id.words ≡ word_count }
    ensures { (result.table_id ≡ word.now.table_id) × (result.me ≡ (rest_view word.now.key, [])) }
{
    word.load_new_seat::<Enter>(0).1
}

/// Takes in what another seat has.
pub fn board(word: &Word, seat: &mut Seat, other: Seat)
    requires table { (seat.old.table_id ≡ word.now.table_id) × (other.table_id ≡ word.now.table_id) × (word.now.table_id.words ≡ word_count) }
    requires other { other.me.1 ≡ [] }
    requires live { (seat.old.me.0.live ≡ true) × (other.me.0.live ≡ true) }
    ensures { (seat.new.table_id ≡ seat.old.table_id) × (seat.new.me ≡ (joined seat.old.me.0 other.me.0, seat.old.me.1)) }
{
    word.join_seat::<Both>(seat, other);
}

/// A seat of its own for the first author.
pub fn alight_author(word: &Word, seat: &mut Seat) -> Seat
    requires table { (seat.old.table_id ≡ word.now.table_id) × (word.now.table_id.words ≡ word_count) }
    ensures rest { (seat.new.table_id ≡ seat.old.table_id) × (seat.new.me ≡ (without_author seat.old.me.0, seat.old.me.1)) }
    ensures author { (result.table_id ≡ seat.old.table_id) × (result.me ≡ (first_author seat.old.me.0, [])) }
{
    word.split_seat::<FirstAuthor>(seat)
}

/// A seat of its own for the first pass.
pub fn alight_pass(word: &Word, seat: &mut Seat) -> Seat
    requires table { (seat.old.table_id ≡ word.now.table_id) × (word.now.table_id.words ≡ word_count) }
    ensures rest { (seat.new.table_id ≡ seat.old.table_id) × (seat.new.me ≡ (without_pass seat.old.me.0, seat.old.me.1)) }
    ensures pass { (result.table_id ≡ seat.old.table_id) × (result.me ≡ (first_pass seat.old.me.0, [])) }
{
    word.split_seat::<FirstPass>(seat)
}

/// How long the history is.
pub fn look(word: &Word, seat: &mut Seat) -> u64
    requires table { (seat.old.table_id ≡ word.now.table_id) × (word.now.table_id.words ≡ word_count) }
    requires live { seat.old.me.0.live ≡ true }
    ensures same { (seat.new.table_id ≡ seat.old.table_id) × (seat.new.me ≡ seat.old.me) }
    ensures meets { Meets seat.old.me.0.setting result seat.old.me.0 }
{
    word.load::<Look>(seat, LENGTH)
}

/// Adds the entry to the history, and answers its place.
pub fn write(word: &Word, seat: &mut Seat, entry: &Entry) -> u64
    requires table { (seat.old.table_id ≡ word.now.table_id) × (word.now.table_id.words ≡ word_count) }
    requires entry { MayGrow seat.old.me.0 entry.now }
    ensures grown { (seat.new.table_id ≡ seat.old.table_id) × (seat.new.me ≡ (grown result entry.now seat.old.me.0, seat.old.me.1)) }
    ensures meets { Meets seat.old.me.0.setting result seat.old.me.0 }
{
    write_named::<Brand>(word, seat, entry)
}

fn write_named<N: Naming>(word: &Word, seat: &mut Seat, _entry: &Entry) -> u64
    requires name { N.entry ≡ _entry.now }
    requires table { (seat.old.table_id ≡ word.now.table_id) × (word.now.table_id.words ≡ word_count) }
    requires entry { MayGrow seat.old.me.0 _entry.now }
    ensures grown { (seat.new.table_id ≡ seat.old.table_id) × (seat.new.me ≡ (grown result _entry.now seat.old.me.0, seat.old.me.1)) }
    ensures meets { Meets seat.old.me.0.setting result seat.old.me.0 }
{
    word.fetch_add::<Commit<N>>(seat, LENGTH, 1)
}
