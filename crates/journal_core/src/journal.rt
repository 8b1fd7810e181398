ghost use Rattle.std.specs.Prelude.{◌≡◌, ◌+◌, ◌^◌, List, ◌≤◌, ◌<◌, true, [], map, length, sum, IfOk, Some};
ghost use Rattle.std.specs.List.{All, range_with_len};
ghost use Rattle.pager_model.specs.Bounds.{most_spaces, most_actors};
ghost use Rattle.pager_model.specs.Entries.{NamesItsParts};
ghost use Rattle.pager_model.specs.Legal.{SpaceJudges, FramesJudge, KeepsOrder, entries_in};
ghost use Rattle.pager_model.specs.declared.entry.Entry.{Entry};
ghost use Rattle.journal_core.specs.Clauses.{NamesOnly, AllowedAfter, IsHistory, IsPartOf, IsOwnOf, AreOf, AreOfTwo, AreSpaceAndFrames};
ghost use Rattle.journal_core.specs.Journals.{new_author, new_passes, written, kept};
ghost use Rattle.pager_model.specs.Legal.{numbered};
ghost use Rattle.journal_core.specs.Seats.{name_of};
ghost use Rattle.journal_core.specs.Views.{blank_part, blank_own, word_count};

use crate::author::Author;
use crate::gather::{board_authors, board_passes, finish, merge};
use crate::pass::{Log, Pass};
use crate::steps::{WORDS, alight_author, alight_pass, board, enter, look, write};
use crate::view::{Order, Seat, View, Word};
use atomic_table::Table;
use pager_model::{Entry, NoMemory, Numbered, Setting};
use std::alloc::Global;
use std::marker::Model;

/// One history, of which each thread writes its own parts.
#[derive(Drop)]
pub struct Journal {
    table: Table<(), View, Setting, Order, Global>,
    /// Room for what `close` gathers: the lists, and the history that they are merged into.
    logs: Vec<Vec<Numbered>>,
    history: Vec<Numbered>,
}

impl Model for Journal {
    ghost use Rattle.std.specs.Prelude.{◌≡◌, [], vec_capacity};
    ghost use Rattle.journal_core.specs.Journals.{JournalState};

    ghost Value = { JournalState };

    ghost use Rattle.journal_core.specs.Seats.{IsJournal};

    ghost view = { λ j. record { name = record { table = j.table.shared.table_id; setting = j.table.shared.key }; room = vec_capacity j.history } };

    ghost invariant = { λ j. IsJournal j.table.shared.table_id j.table.shared.key (vec_capacity j.logs) × (j.logs.items ≡ []) × (j.history.items ≡ []) };
}

/// A new journal, with one author for each part and one pass for each processor.
#[derive(Drop)]
pub struct Opened {
    pub journal: Journal,
    pub authors: Vec<Author>,
    pub passes: Vec<Pass>,
}

/// A journal with an empty history, for a setting, and with room for so many entries of each processor. The
/// authors come in the order of the spaces, with that of the frames last, and the passes in the order of the processors.
/// `NoMemory` where memory runs out. No other call of a journal takes any.
pub fn create(alloc: Global, setting: Setting, rooms: &[usize]) -> Result<Opened, NoMemory>
    requires spaces { length setting.told ≤ most_spaces }
    requires processors { (1 ≤ length rooms.now) × (length rooms.now ≤ most_actors) × (length rooms.now ≡ length setting.marks) }
    requires rooms { All (λ r. r ≤ 2 ^ 31) rooms.now }
    ensures setting { IfOk result (λ o. o.journal.name.setting ≡ setting) }
    ensures authors { IfOk result (λ o. o.authors.items ≡ map (new_author o.journal.name) (range_with_len 0 (length setting.told + 1))) }
    ensures passes { IfOk result (λ o. o.passes.items ≡ new_passes o.journal.name 0 rooms.now) }
    ensures room { IfOk result (λ o. o.journal.room ≡ sum rooms.now) }
{
    let history = Vec::with_capacity(alloc, total(rooms))?;
    let logs = Vec::with_capacity(alloc, rooms.len())?;
    let parts = setting.spaces() + 1;
    let (table, mut seat) = Table::of_words(alloc, &[0; WORDS], &setting)?;
    let authors = deal_authors(alloc, &table.shared, &mut seat, parts)?;
    let passes = deal_passes(alloc, &table.shared, &mut seat, rooms)?;
    let journal = Journal {
        table,
        logs,
        history,
    };
    Ok(Opened {
        journal,
        authors,
        passes,
    })
}

/// The room of all passes.
fn total(rooms: &[usize]) -> usize
    requires { (length rooms.now ≤ most_actors) × All (λ r. r ≤ 2 ^ 31) rooms.now }
    ensures { result ≡ sum rooms.now }
{
    let mut total = 0;
    for room in rooms {
        total += room;
    }
    total
}

/// The authors of the first parts, cast off from the seat that has them all.
fn deal_authors(
    alloc: Global,
    word: &Word,
    seat: &mut Seat,
    count: usize,
) -> Result<Vec<Author>, NoMemory>
    requires table { (seat.old.table_id ≡ word.now.table_id) × (word.now.table_id.words ≡ word_count) }
    requires live { (seat.old.me.0.live ≡ true) × (seat.old.me.1 ≡ []) }
    requires authors { seat.old.me.0.authors ≡ map blank_part (range_with_len 0 count) }
    requires parts { count ≤ length seat.old.me.0.setting.told + 1 }
    ensures authors { IfOk result (λ v. v.items ≡ map (new_author (name_of seat.old.table_id seat.old.me.0)) (range_with_len 0 count)) }
    ensures rest { IfOk result (λ v. (seat.new.table_id ≡ seat.old.table_id) × (seat.new.me ≡ (record { live = true; setting = seat.old.me.0.setting; authors = []; passes = seat.old.me.0.passes }, []))) }
{
    let mut authors = Vec::with_capacity(alloc, count)?;
    for _part in 0..count {
        authors.push_reserved(Author::of(alight_author(word, seat)));
    }
    Ok(authors)
}

/// The passes of all processors, cast off from the seat that has them all.
fn deal_passes(
    alloc: Global,
    word: &Word,
    seat: &mut Seat,
    rooms: &[usize],
) -> Result<Vec<Pass>, NoMemory>
    requires table { (seat.old.table_id ≡ word.now.table_id) × (word.now.table_id.words ≡ word_count) }
    requires live { (seat.old.me.0.live ≡ true) × (seat.old.me.1 ≡ []) × (seat.old.me.0.authors ≡ []) }
    requires passes { seat.old.me.0.passes ≡ map blank_own (range_with_len 0 (length rooms.now)) }
    requires rooms { (length rooms.now ≤ most_actors) × (length rooms.now ≡ length seat.old.me.0.setting.marks) × All (λ r. r ≤ 2 ^ 31) rooms.now }
    ensures passes { IfOk result (λ v. v.items ≡ new_passes (name_of seat.old.table_id seat.old.me.0) 0 rooms.now) }
    ensures rest { IfOk result (λ v. (seat.new.table_id ≡ seat.old.table_id) × (seat.new.me ≡ (record { live = true; setting = seat.old.me.0.setting; authors = []; passes = [] }, []))) }
{
    let mut passes = Vec::with_capacity(alloc, rooms.len())?;
    for processor in 0..rooms.len() {
        let entries = Vec::with_capacity(alloc, rooms[processor])?;
        let log = Log::new(processor as u32, entries);
        passes.push_reserved(Pass::of(log, alight_pass(word, seat)));
    }
    Ok(passes)
}

/// Adds an entry that names one part to the history. Answers its place, and the author and the pass with their lists grown
/// by it. The part allows the entry after the author's list, the pass's list stays ordered with it, and the pass has room.
pub fn commit(journal: &Journal, author: Author, pass: Pass, entry: Entry) -> (u64, Author, Pass)
    requires journal { (author.journal ≡ journal.now.name) × (pass.journal ≡ journal.now.name) }
    requires parts { NamesItsParts entry }
    requires author { NamesOnly (length author.journal.setting.told) author.part entry }
    requires processor { entry.processor ≡ pass.processor }
    requires allowed { AllowedAfter author.journal.setting author.entries entry }
    requires order { KeepsOrder pass.journal.setting (entries_in pass.entries) entry }
    requires room { length pass.entries < pass.room }
    ensures author { result.1 ≡ written author entry }
    ensures pass { result.2 ≡ kept pass result.0 entry }
    ensures place { (history : List Entry) × AreOf author pass history × (length history ≡ result.0) }
{
    let word = &journal.table.shared;
    let (mut log, mut seat) = pass.into_parts();
    board(word, &mut seat, author.into_seat());
    let number = write(word, &mut seat, &entry);
    let author = Author::of(alight_author(word, &mut seat));
    log.add(number, entry);
    (number, author, Pass::of(log, seat))
}

/// Adds an entry that names a space and the frames to the history. Answers its place, and the authors and the pass with
/// their lists grown by it. Both parts allow the entry after their lists, the pass's list stays ordered with it, and the
/// pass has room.
pub fn commit_two(
    journal: &Journal,
    space: Author,
    frames: Author,
    pass: Pass,
    entry: Entry,
) -> (u64, Author, Author, Pass)
    requires journal { (space.journal ≡ journal.now.name) × (frames.journal ≡ journal.now.name) × (pass.journal ≡ journal.now.name) }
    requires parts { NamesItsParts entry }
    requires authors { AreSpaceAndFrames space frames × (entry.space ≡ Some space.part) × (entry.frames ≡ true) }
    requires processor { entry.processor ≡ pass.processor }
    requires space { SpaceJudges space.journal.setting space.part space.entries entry }
    requires frames { FramesJudge frames.journal.setting frames.entries entry }
    requires order { KeepsOrder pass.journal.setting (entries_in pass.entries) entry }
    requires room { length pass.entries < pass.room }
    ensures space { result.1 ≡ written space entry }
    ensures frames { result.2 ≡ written frames entry }
    ensures pass { result.3 ≡ kept pass result.0 entry }
    ensures place { (history : List Entry) × AreOfTwo space frames pass history × (length history ≡ result.0) }
{
    let word = &journal.table.shared;
    let (mut log, mut seat) = pass.into_parts();
    board(word, &mut seat, space.into_seat());
    board(word, &mut seat, frames.into_seat());
    let number = write(word, &mut seat, &entry);
    let space = Author::of(alight_author(word, &mut seat));
    let frames = Author::of(alight_author(word, &mut seat));
    log.add(number, entry);
    (number, space, frames, Pass::of(log, seat))
}

/// Tells that the lists of the author and of the pass are of one legal history. No entry is made.
pub fn meet(journal: &Journal, author: Author, pass: Pass) -> (Author, Pass)
    requires journal { (author.journal ≡ journal.now.name) × (pass.journal ≡ journal.now.name) }
    ensures same { (result.0 ≡ author) × (result.1 ≡ pass) }
    ensures one_history { (history : List Entry) × AreOf author pass history }
{
    let word = &journal.table.shared;
    let (log, mut seat) = pass.into_parts();
    board(word, &mut seat, author.into_seat());
    look(word, &mut seat);
    let author = Author::of(alight_author(word, &mut seat));
    (author, Pass::of(log, seat))
}

/// Tells that the lists of a space's author, of the frames' author and of the pass are of one legal history. No entry is
/// made.
pub fn meet_two(
    journal: &Journal,
    space: Author,
    frames: Author,
    pass: Pass,
) -> (Author, Author, Pass)
    requires journal { (space.journal ≡ journal.now.name) × (frames.journal ≡ journal.now.name) × (pass.journal ≡ journal.now.name) }
    requires authors { AreSpaceAndFrames space frames }
    ensures same { (result.0 ≡ space) × (result.1 ≡ frames) × (result.2 ≡ pass) }
    ensures one_history { (history : List Entry) × AreOfTwo space frames pass history }
{
    let word = &journal.table.shared;
    let (log, mut seat) = pass.into_parts();
    board(word, &mut seat, space.into_seat());
    board(word, &mut seat, frames.into_seat());
    look(word, &mut seat);
    let space = Author::of(alight_author(word, &mut seat));
    let frames = Author::of(alight_author(word, &mut seat));
    (space, frames, Pass::of(log, seat))
}

/// The one history, from all passes of a journal in the order of their processors, and its authors. Its entries have the
/// numbers from 0 on. It lies in room that the journal has from its start.
pub fn close(journal: Journal, authors: Vec<Author>, passes: Vec<Pass>) -> Vec<Numbered>
    requires journal { All (λ a. a.journal ≡ journal.name) authors.items × All (λ p. p.journal ≡ journal.name) passes.items }
    requires passes { map (λ p. p.processor) passes.items ≡ range_with_len 0 (length journal.name.setting.marks) }
    requires room { sum (map (λ p. p.room) passes.items) ≤ journal.room }
    ensures numbers { result.items ≡ numbered (entries_in result.items) }
    ensures history { IsHistory journal.name.setting (entries_in result.items) }
    ensures authors { All (λ a. IsPartOf a (entries_in result.items)) authors.items }
    ensures passes { All (λ p. IsOwnOf p (entries_in result.items)) passes.items }
{
    let Journal {
        table,
        mut logs,
        history,
    } = journal;
    let mut seat = enter(&table.shared);
    board_authors(&table.shared, &mut seat, authors);
    board_passes(&table.shared, &mut seat, passes, &mut logs);
    let length = finish(table, seat);
    merge(history, length, &logs)
}
