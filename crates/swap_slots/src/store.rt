//! A store over slots.

ghost use Rattle.std.specs.Prelude.{◌≡◌, ◌≢◌, ℕ, ◌-◌, ◌^◌, ◌<◌, ◌≤◌, ◌⊎◌, ◌↔◌, true, false, [], length, Some, None, IfOk, IfErr, IfSome, OnOk, OnErr, if◌then◌else◌};
ghost use Rattle.bit_set.specs.Bits.{most_bound};
ghost use Rattle.pager_model.specs.Bounds.{space_pages};
ghost use Rattle.pager_model.specs.SpaceStates.{Rises};
ghost use Rattle.pager_model.specs.Stored.{copy_at, keeps_at, SameCopies, SetsCopy, DropsCopies, TellsZero};
ghost use Rattle.pager_model.specs.Regions.{in_range};
ghost use Rattle.store_core.specs.CopiedWords.{copied_words};
ghost use Rattle.store_core.specs.MemoryState.{one_more};
ghost use Rattle.swap_slots.specs.SlotState.{SlotState, stored_slots, WritesTo};
ghost use Rattle.swap_slots.specs.Slots.{copy_of, slot_in, free_count, HaveOwnSlots, LacksSlot, SetsPage};

use crate::blocks::Blocks;
use crate::table::{PageCopy, SlotTable};
use pager_model::PAGES;
use std::alloc::Global;
use std::marker::Model;
use store_core::{Copied, Store, StoreFailed, WriteRefused};

/// The most slots of a device under a store.
const MOST_SLOTS: u32 = 1 << 18;

/// Why a page was not put into a slot.
#[derive(Clone, Copy, Debug, PartialEq, Eq)]
pub enum PutRefused {
    /// The page has no slot, and no slot is free. Nothing changed.
    SlotsFull,
    /// The device's write failed: the page is lost now, its slot is free, and the device's count of faults rose.
    Failed,
}

/// Keeps the copies of a space's pages in the slots of a device.
///
/// Each page is zero, lost, or has one slot, and no two pages have the same. The copy of a lost page is unknown, and reads as zero. It keeps
/// every page of a space: no write takes memory.
#[derive(Drop)]
pub struct SlotStore<B: Blocks> {
    blocks: B,
    table: SlotTable,
    reads: u64,
    writes: u64,
    refused: u64,
}

impl<B: Blocks> Model for SlotStore<B> {
    ghost use Rattle.std.specs.Prelude.{◌≡◌, ◌-◌, ◌^◌, ◌≤◌};
    ghost use Rattle.swap_slots.specs.SlotState.{SlotState};

    ghost Value = { SlotState };

    ghost view = { λ s. record { device = B.device s.blocks; slots = s.table; reads = s.reads; writes = s.writes; refused = s.refused } };

    ghost invariant = { λ s. (s.table.count ≡ (B.device s.blocks).slots) × (s.refused ≤ 2 ^ 64 - 1) };
}

impl<B: Blocks> SlotStore<B> {
    /// A store over this device, all of whose slots it uses, and whose pages are zero. Its memory is all that it ever takes; where there is none, the
    /// device comes back, as does one of more than 262,144 slots.
    pub fn create(alloc: Global, blocks: B) -> Result<SlotStore<B>, B>
        ensures made { IfOk result (λ store. store ≡ record {
          device = B.device blocks;
          slots = record { count = (B.device blocks).slots; pages = [] };
          reads = 0;
          writes = 0;
          refused = 0;
        }) }
        ensures given_back { IfErr result (λ device. device ≡ blocks) }
        ensures few { IfOk result (λ _. (B.device blocks).slots ≤ most_bound) }
    {
        if blocks.slots() > MOST_SLOTS {
            return Err(blocks);
        }
        match SlotTable::create(alloc, blocks.slots()) {
            Ok(table) => Ok(SlotStore {
                blocks,
                table,
                reads: 0,
                writes: 0,
                refused: 0,
            }),
            Err(_) => Err(blocks),
        }
    }

    /// The slot of a page, if it has one.
    pub fn slot_of(&self, page: u32) -> Option<u32>
        ensures slot { result ≡ slot_in (copy_of self.now.slots page) }
        ensures there { IfSome result (λ s. s < self.now.slots.count) }
        ensures own { HaveOwnSlots self.now.slots }
    {
        match self.table.copy_of(page) {
            PageCopy::Slot(slot) => Some(slot),
            PageCopy::Zero | PageCopy::Lost => None,
        }
    }

    /// How many slots are free.
    pub fn free_slots(&self) -> u32
        ensures { result ≡ free_count self.now.slots }
    {
        self.table.free_count()
    }

    /// Writes the words of a page to its slot, or to the lowest free one, which it has from then on: one write of the device, and none where there is
    /// no slot for them.
    pub fn put(&mut self, page: u32, words: &[u64]) -> Result<(), PutRefused>
        requires page { page < space_pages }
        requires count { length words.now ≡ 1024 }
        ensures ok { OnOk result ((s : ℕ) × WritesTo page s (PageCopy.Slot s) (Some words.now) self.old self.new) }
        ensures failed { result ≡ Err PutRefused.Failed → ((s : ℕ) × WritesTo page s PageCopy.Lost None self.old self.new) }
        ensures rose { result ≡ Err PutRefused.Failed → Rises self.old.device.faults self.new.device.faults }
        ensures full { (result ≡ Err PutRefused.SlotsFull) ↔ LacksSlot self.old.slots page }
        ensures full_same { result ≡ Err PutRefused.SlotsFull → self.new ≡ self.old }
        ensures every_slot { self.old.slots.count ≡ self.old.device.slots }

        // It writes the device once where there is a slot, and never reads it.
        ensures once { result ≢ Err PutRefused.SlotsFull → self.new.device.writes ≡ one_more self.old.device.writes }
        ensures device_unread { self.new.device.reads ≡ self.old.device.reads }
        ensures unfailed { OnOk result (self.new.device.faults ≡ self.old.device.faults) }

        // It counts no read, write or refusal of its own, and no two pages have the same slot.
        ensures unread { self.new.reads ≡ self.old.reads }
        ensures unwritten { self.new.writes ≡ self.old.writes }
        ensures refused { self.new.refused ≡ self.old.refused }
        ensures never_falls { self.old.device.faults ≤ self.new.device.faults }
        ensures own { HaveOwnSlots self.old.slots × HaveOwnSlots self.new.slots }
    {
        let Some(slot) = self.table.slot_for(page) else {
            return Err(PutRefused::SlotsFull);
        };
        if self.blocks.write(slot, words).is_err() {
            self.table.set(page, PageCopy::Lost);
            return Err(PutRefused::Failed);
        }
        self.table.set(page, PageCopy::Slot(slot));
        Ok(())
    }
}

impl<B: Blocks> Store for SlotStore<B> {
    ghost seen = { stored_slots };

    ghost reads = { λ s. s.reads };

    ghost writes = { λ s. s.writes };

    ghost lasts = { true };

    fn read(&mut self, page: u32, words: &mut [u64]) -> Result<Copied, StoreFailed>
        requires count { length words.old ≡ 1024 }

        // As at any store.
        ensures read { IfOk result
            (λ copied. (stored_slots self.old).tells ≡ true
            → IfSome (copy_at (stored_slots self.old) page) (λ copy. copied_words copied words.new ≡ copy)) }
        ensures same { SameCopies (stored_slots self.old) (stored_slots self.new) }
        ensures counted { self.new.reads ≡ one_more self.old.reads }
        ensures unwritten { self.new.writes ≡ self.old.writes }
        ensures unfailed { IfOk result (λ _. (stored_slots self.new).faults ≡ (stored_slots self.old).faults) }
        ensures rose { OnErr result (Rises (stored_slots self.old).faults (stored_slots self.new).faults) }
        ensures never_falls { (stored_slots self.old).faults ≤ (stored_slots self.new).faults }
        ensures capped { (stored_slots self.new).faults ≤ 2 ^ 64 - 1 }

        // It fails only where its device does; a page without a slot reads as zero.
        ensures device { OnErr result (Rises self.old.device.faults self.new.device.faults) }
        ensures zero { slot_in (copy_of self.old.slots page) ≡ None → result ≡ Ok Copied.Zeros }
        ensures table { self.new.slots ≡ self.old.slots }
        ensures refused { self.new.refused ≡ self.old.refused }

        // It reads the device once for a page with a slot, and else not, and never writes it.
        ensures once { IfSome (slot_in (copy_of self.old.slots page)) (λ _. self.new.device.reads ≡ one_more self.old.device.reads) }
        ensures none { slot_in (copy_of self.old.slots page) ≡ None → self.new.device ≡ self.old.device }
        ensures device_unwritten { self.new.device.writes ≡ self.old.device.writes }
    {
        self.reads = self.reads.saturating_add(1);
        let Some(slot) = self.slot_of(page) else {
            return Ok(Copied::Zeros);
        };
        let Ok(()) = self.blocks.read(slot, words) else {
            return Err(StoreFailed);
        };
        Ok(Copied::Words)
    }

    fn write(&mut self, page: u32, words: &[u64]) -> Result<(), WriteRefused>
        requires count { length words.now ≡ 1024 }

        // As at any store.
        ensures wrote { IfOk result
            (λ _. SetsCopy page (Some words.now) (stored_slots self.old) (stored_slots self.new)
            × (keeps_at (stored_slots self.new) page ≡ true)) }
        ensures failed { result ≡ Err WriteRefused.Failed
            → SetsCopy page None (stored_slots self.old) (stored_slots self.new)
            × Rises (stored_slots self.old).faults (stored_slots self.new).faults }
        ensures no_memory { result ≡ Err WriteRefused.NoMemory
            → (keeps_at (stored_slots self.old) page ≡ false) × SameCopies (stored_slots self.old) (stored_slots self.new)
            × ((stored_slots self.new).faults ≡ (stored_slots self.old).faults) }
        ensures counted { self.new.writes ≡ one_more self.old.writes }
        ensures unread { self.new.reads ≡ self.old.reads }
        ensures unfailed { IfOk result (λ _. (stored_slots self.new).faults ≡ (stored_slots self.old).faults) }
        ensures never_falls { (stored_slots self.old).faults ≤ (stored_slots self.new).faults }
        ensures capped { (stored_slots self.new).faults ≤ 2 ^ 64 - 1 }

        // A page of a space goes to its slot, or to the lowest free one.
        ensures placed { OnOk result ((s : ℕ) × WritesTo page s (PageCopy.Slot s) (Some words.now) self.old self.new) }
        ensures past { (result ≡ Err WriteRefused.NoMemory) ↔ (space_pages ≤ page) }
        ensures past_same { space_pages ≤ page → self.new ≡ record self.old { writes = one_more self.old.writes } }

        // Where there is neither, the page is lost, and it counts one more refusal. Else it fails only where its device does.
        ensures full { page < space_pages → LacksSlot self.old.slots page
            → (result ≡ Err WriteRefused.Failed) × SetsPage page PageCopy.Lost self.old.slots self.new.slots
            × (self.new.device ≡ self.old.device) × (self.new.refused ≡ one_more self.old.refused) }
        ensures not_full { ¬ LacksSlot self.old.slots page → self.new.refused ≡ self.old.refused }
        ensures device { result ≡ Err WriteRefused.Failed → LacksSlot self.old.slots page
            ⊎ (((s : ℕ) × WritesTo page s PageCopy.Lost None self.old self.new) × Rises self.old.device.faults self.new.device.faults) }

        // It writes the device once where there is a slot, and never reads it.
        ensures once { page < space_pages → ¬ LacksSlot self.old.slots page → self.new.device.writes ≡ one_more self.old.device.writes }
        ensures device_unread { self.new.device.reads ≡ self.old.device.reads }
    {
        self.writes = self.writes.saturating_add(1);
        if page >= PAGES {
            return Err(WriteRefused::NoMemory);
        }
        match self.put(page, words) {
            Ok(()) => Ok(()),
            Err(PutRefused::Failed) => Err(WriteRefused::Failed),
            Err(PutRefused::SlotsFull) => {
                self.table.set(page, PageCopy::Lost);
                self.refused = self.refused.saturating_add(1);
                Err(WriteRefused::Failed)
            }
        }
    }

    fn drop_pages(&mut self, first: u32, length: u32)
        // As at any store.
        ensures dropped { DropsCopies first length (stored_slots self.old) (stored_slots self.new) }
        ensures unread { self.new.reads ≡ self.old.reads }
        ensures unwritten { self.new.writes ≡ self.old.writes }

        // The pages are zero, so their slots are free; nothing else changes.
        ensures count { self.new.slots.count ≡ self.old.slots.count }
        ensures zero { (p : ℕ) → copy_of self.new.slots p ≡ (if in_range first length p then PageCopy.Zero else copy_of self.old.slots p) }
        ensures device { self.new.device ≡ self.old.device }
        ensures refused { self.new.refused ≡ self.old.refused }
        ensures own { HaveOwnSlots self.new.slots }
    {
        self.table.drop_range(first, length);
    }

    fn told(&self) -> bool
        ensures told { result ≡ (stored_slots self.now).told }
        ensures zero { result ≡ true → TellsZero (stored_slots self.now) }
    {
        self.table.is_zero() && self.blocks.tells()
    }

    fn faults(&self) -> u64
        ensures faults { result ≡ (stored_slots self.now).faults }
        ensures capped { (stored_slots self.now).faults ≤ 2 ^ 64 - 1 }
    {
        self.blocks.faults().saturating_add(self.refused)
    }
}
