//! A backing store in memory, which fails where it is told to.

ghost use Rattle.std.specs.Prelude.{◌≡◌, ◌≢◌, ℕ, ◌-◌, ◌^◌, ◌<◌, ◌≤◌, ◌↔◌, true, false, ◌&&◌, not, [], length, filter, Option, Some, None, IfOk, IfSome, IfNone, IsSome, OnOk, OnErr, IsErr, IsTrue, Contains, unwrap_or};
ghost use Rattle.std.specs.BTreeMap.{get, Updates, IsUnchanged};
ghost use Rattle.std.specs.Option.{option_copied};
ghost use Rattle.std.specs.Ordering.{nat_cmp};
ghost use Rattle.pager_model.specs.Regions.{in_range};
ghost use Rattle.pager_model.specs.SpaceStates.{Rises};
ghost use Rattle.pager_model.specs.Stored.{copy_in, copy_at, keeps_at, zero_words, SameCopies, SetsCopy, DropsCopies, TellsZero};
ghost use Rattle.store_core.specs.CopiedWords.{copied_words};
ghost use Rattle.store_core.specs.MemoryState.{MemoryState, copies_of, one_more, stored_of};

mod room;

use crate::store::{Copied, Store, StoreFailed, WriteRefused};
use pager_model::NoMemory;
use room::Room;
use std::alloc::Global;
use std::collections::BTreeMap;
use std::marker::Model;

/// Keeps copies in memory, and fails at the reads and writes that it was told to fail at.
///
/// It keeps the pages that were written and not dropped since. The first write of a page takes its memory, and one that finds none is
/// refused.
#[derive(Drop)]
pub struct MemoryStore {
    alloc: Global,
    copies: BTreeMap<u32, Room>,
    failing_reads: Vec<u64>,
    failing_writes: Vec<u64>,
    reads: u64,
    writes: u64,
    faults: u64,
}

impl Model for MemoryStore {
    ghost use Rattle.std.specs.Prelude.{◌-◌, ◌^◌, ◌≤◌};
    ghost use Rattle.store_core.specs.MemoryState.{MemoryState, copies_of};

    ghost Value = { MemoryState };

    ghost view = { λ s. record {
      copies = copies_of s.copies.entries;
      failing_reads = s.failing_reads.items;
      failing_writes = s.failing_writes.items;
      reads = s.reads;
      writes = s.writes;
      faults = s.faults;
    } };

    ghost invariant = { λ s. s.faults ≤ 2 ^ 64 - 1 };
}

impl MemoryStore {
    /// A store whose copies are zero, which fails at the reads and the writes whose numbers, counted from 1, are in these lists.
    pub fn of(alloc: Global, reads: Vec<u64>, writes: Vec<u64>) -> MemoryStore
        ensures made { result ≡ record {
          copies = [];
          failing_reads = reads.items;
          failing_writes = writes.items;
          reads = 0;
          writes = 0;
          faults = 0;
        } }
    {
        MemoryStore {
            alloc,
            copies: BTreeMap::new(alloc),
            failing_reads: reads,
            failing_writes: writes,
            reads: 0,
            writes: 0,
            faults: 0,
        }
    }
}

/// Reads the copy of a page: zero words where it has none of its own, or where it is unknown. It writes nothing then.
#[tactic(auto, using(crate::proofs::CopyLemmas::copy_in_entries))]
fn read_copy(copies: &BTreeMap<u32, Room>, page: u32, words: &mut [u64]) -> Copied
    requires count { length words.old ≡ 1024 }
    ensures { copied_words result words.new ≡ unwrap_or (copy_in (copies_of copies.now.entries) page) zero_words }
{
    match copies.get(&page).and_then(Room::words) {
        Some(copy) => {
            words.copy_from_slice(copy);
            Copied::Words
        }
        None => Copied::Zeros,
    }
}

/// Makes the copy of a page these words, or unknown. Takes memory only where the page has no room yet.
fn set_copy(
    copies: &mut BTreeMap<u32, Room>,
    alloc: Global,
    page: u32,
    copy: Option<&[u64]>,
) -> Result<(), NoMemory>
    requires count { IfSome copy (λ words. length words.now ≡ 1024) }
    ensures set { OnOk result (Updates nat_cmp copies.old copies.new page (Some (option_copied copy.entry))) }
    ensures none { OnErr result (get nat_cmp copies.old page ≡ None) }
    ensures err { OnErr result (IsUnchanged copies.old copies.new) }
{
    match copies.get_mut(&page) {
        Some(room) => room.set(copy),
        None => {
            copies.insert(page, Room::of(alloc, copy)?)?;
        }
    }
    Ok(())
}

/// Whether the page is one of the `length` pages from `first` on.
fn lies_in(page: u32, first: u32, length: u32) -> bool
    ensures { result ≡ in_range first length page }
{
    first <= page && page - first < length
}

/// The lowest page of a range that has a copy.
fn first_copy(copies: &BTreeMap<u32, Room>, first: u32, length: u32) -> Option<u32>
    ensures some { IfSome result (λ page. (in_range first length page ≡ true) × IsSome (get nat_cmp copies.now page)) }
    ensures none { IfNone result ((page : ℕ) → in_range first length page ≡ true → get nat_cmp copies.now page ≡ None) }
{
    let (&page, _) = copies.range(first..).next()?;
    lies_in(page, first, length).then_some(page)
}

/// Takes the copies of a range's pages out. It looks at these alone.
fn drop_copies(copies: &mut BTreeMap<u32, Room>, first: u32, length: u32)
    ensures { copies.new.entries ≡ filter (λ copy. not (in_range first length copy.0)) copies.old.entries }
{
    while let Some(page) = first_copy(copies, first, length) {
        copies.remove(&page);
    }
}

impl Store for MemoryStore {
    ghost seen = { stored_of };

    ghost reads = { λ s. s.reads };

    ghost writes = { λ s. s.writes };

    fn read(&mut self, page: u32, words: &mut [u64]) -> Result<Copied, StoreFailed>
        requires count { length words.old ≡ 1024 }

        // As at any store.
        ensures read { IfOk result
            (λ copied. (stored_of self.old).tells ≡ true
            → IfSome (copy_at (stored_of self.old) page) (λ copy. copied_words copied words.new ≡ copy)) }
        ensures same { SameCopies (stored_of self.old) (stored_of self.new) }
        ensures counted { self.new.reads ≡ one_more self.old.reads }
        ensures unwritten { self.new.writes ≡ self.old.writes }
        ensures unfailed { IfOk result (λ _. self.new.faults ≡ self.old.faults) }
        ensures rose { OnErr result (Rises self.old.faults self.new.faults) }
        ensures never_falls { self.old.faults ≤ self.new.faults }
        ensures capped { self.new.faults ≤ 2 ^ 64 - 1 }

        // When it fails, what it gives, and how it goes on.
        ensures fails { IsErr result ↔ Contains self.old.failing_reads (one_more self.old.reads) }
        ensures gave { IfOk result
            (λ copied. copied_words copied words.new ≡ unwrap_or (copy_at (stored_of self.old) page) zero_words) }
        ensures ok_state { OnOk result (self.new ≡ record self.old { reads = one_more self.old.reads }) }
        ensures err_words { OnErr result (words.new ≡ words.old) }
        ensures err_state { OnErr result (self.new ≡ record self.old {
          reads = one_more self.old.reads;
          faults = one_more self.old.faults;
        }) }
    {
        self.reads = self.reads.saturating_add(1);
        if self.failing_reads.contains(&self.reads) {
            self.faults = self.faults.saturating_add(1);
            return Err(StoreFailed);
        }
        Ok(read_copy(&self.copies, page, words))
    }

    fn write(&mut self, page: u32, words: &[u64]) -> Result<(), WriteRefused>
        requires count { length words.now ≡ 1024 }

        // As at any store.
        ensures wrote { IfOk result
            (λ _. SetsCopy page (Some words.now) (stored_of self.old) (stored_of self.new) × (keeps_at (stored_of self.new) page ≡ true)) }
        ensures failed { result ≡ Err WriteRefused.Failed
            → SetsCopy page None (stored_of self.old) (stored_of self.new) × Rises self.old.faults self.new.faults }
        ensures no_memory { result ≡ Err WriteRefused.NoMemory
            → (keeps_at (stored_of self.old) page ≡ false) × SameCopies (stored_of self.old) (stored_of self.new)
            × (self.new.faults ≡ self.old.faults) }
        ensures counted { self.new.writes ≡ one_more self.old.writes }
        ensures unread { self.new.reads ≡ self.old.reads }
        ensures unfailed { IfOk result (λ _. self.new.faults ≡ self.old.faults) }
        ensures never_falls { self.old.faults ≤ self.new.faults }
        ensures capped { self.new.faults ≤ 2 ^ 64 - 1 }

        // When it fails, and how it goes on.
        ensures fails { result ≢ Err WriteRefused.NoMemory
            → (IsErr result ↔ Contains self.old.failing_writes (one_more self.old.writes)) }
        ensures ok_state { OnOk result (self.new ≡ record self.old {
          copies = self.new.copies;
          writes = one_more self.old.writes;
        }) }
        ensures failed_state { result ≡ Err WriteRefused.Failed → self.new ≡ record self.old {
          copies = self.new.copies;
          writes = one_more self.old.writes;
          faults = one_more self.old.faults;
        } }
        ensures failed_keeps { result ≡ Err WriteRefused.Failed → keeps_at (stored_of self.new) page ≡ true }
        ensures no_memory_state { result ≡ Err WriteRefused.NoMemory → self.new ≡ record self.old { writes = one_more self.old.writes } }
    {
        self.writes = self.writes.saturating_add(1);
        if self.failing_writes.contains(&self.writes) {
            set_copy(&mut self.copies, self.alloc, page, None)?;
            self.faults = self.faults.saturating_add(1);
            return Err(WriteRefused::Failed);
        }
        set_copy(&mut self.copies, self.alloc, page, Some(words))?;
        Ok(())
    }

    fn drop_pages(&mut self, first: u32, length: u32)
        // As at any store.
        ensures dropped { DropsCopies first length (stored_of self.old) (stored_of self.new) }
        ensures unread { self.new.reads ≡ self.old.reads }
        ensures unwritten { self.new.writes ≡ self.old.writes }

        // It keeps none of the pages.
        ensures state { self.new ≡ record self.old {
          copies = filter (λ c. not (in_range first length c.page)) self.old.copies;
        } }
    {
        drop_copies(&mut self.copies, first, length);
    }

    fn told(&self) -> bool
        ensures told { result ≡ (stored_of self.now).told }
        ensures zero { result ≡ true → TellsZero (stored_of self.now) }

        // It is so where no page has a copy of its own.
        ensures none { IsTrue result ↔ (self.now.copies ≡ []) }
    {
        self.copies.is_empty()
    }

    fn faults(&self) -> u64
        ensures faults { result ≡ self.now.faults }
        ensures capped { self.now.faults ≤ 2 ^ 64 - 1 }
    {
        self.faults
    }
}
