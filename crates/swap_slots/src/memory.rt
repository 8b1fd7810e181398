//! A block device in memory, which fails where it is told to.

ghost use Rattle.std.specs.Prelude.{◌≡◌, ◌<◌, ◌≤◌, true, length, replicate, Some, None, IfOk, IfSome, OnOk, OnErr, IsErr, Contains, slice_set, ◌↔◌};
ghost use Rattle.pager_model.specs.SpaceStates.{Rises};
ghost use Rattle.pager_model.specs.Stored.{zero_words};
ghost use Rattle.store_core.specs.MemoryState.{one_more};
ghost use Rattle.swap_slots.specs.BlocksState.{BlocksState, device_of};
ghost use Rattle.swap_slots.specs.Devices.{words_at, SameWords, SetsWords};

mod slot;

use crate::blocks::{BlockFailed, Blocks};
use pager_model::NoMemory;
use slot::{Slot, blank_slots};
use std::alloc::Global;
use std::marker::Model;

/// Keeps the words of its slots in memory, and fails at the reads and the writes that it was told to fail at.
#[derive(Drop)]
pub struct MemoryBlocks {
    slots: Vec<Slot>,
    failing_reads: Vec<u64>,
    failing_writes: Vec<u64>,
    reads: u64,
    writes: u64,
    faults: u64,
}

impl Model for MemoryBlocks {
    ghost use Rattle.std.specs.Prelude.{◌<◌, ◌^◌, length};
    ghost use Rattle.swap_slots.specs.BlocksState.{BlocksState};

    ghost Value = { BlocksState };

    ghost view = { λ b. record {
      slots = b.slots.items;
      failing_reads = b.failing_reads.items;
      failing_writes = b.failing_writes.items;
      reads = b.reads;
      writes = b.writes;
      faults = b.faults;
    } };

    ghost invariant = { λ b. length b.slots.items < 2 ^ 32 };
}

impl MemoryBlocks {
    /// A device of this many slots, whose words are zero, which fails at the reads and the writes whose numbers, counted from 1, are in these
    /// lists.
    pub fn create(
        alloc: Global,
        slots: u32,
        reads: Vec<u64>,
        writes: Vec<u64>,
    ) -> Result<MemoryBlocks, NoMemory>
        ensures made { IfOk result (λ b. b ≡ record {
          slots = replicate slots (Some zero_words);
          failing_reads = reads.items;
          failing_writes = writes.items;
          reads = 0;
          writes = 0;
          faults = 0;
        }) }
    {
        let slots = blank_slots(alloc, slots)?;
        Ok(MemoryBlocks {
            slots,
            failing_reads: reads,
            failing_writes: writes,
            reads: 0,
            writes: 0,
            faults: 0,
        })
    }
}

impl Blocks for MemoryBlocks {
    ghost device = { device_of };

    fn slots(&self) -> u32 {
        self.slots.len() as u32
    }

    fn tells(&self) -> bool {
        true
    }

    fn read(&mut self, slot: u32, words: &mut [u64]) -> Result<(), BlockFailed>
        requires slot { slot < length self.old.slots }
        requires count { length words.old ≡ 1024 }

        // As at any device.
        ensures read { OnOk result
            ((device_of self.old).tells ≡ true → IfSome (words_at (device_of self.old) slot) (λ known. words.new ≡ known)) }
        ensures same { SameWords (device_of self.old) (device_of self.new) }
        ensures counted { self.new.reads ≡ one_more self.old.reads }
        ensures unwritten { self.new.writes ≡ self.old.writes }
        ensures unfailed { OnOk result (self.new.faults ≡ self.old.faults) }
        ensures rose { OnErr result (Rises self.old.faults self.new.faults) }
        ensures never_falls { self.old.faults ≤ self.new.faults }

        // When it fails, and how it goes on.
        ensures fails { IsErr result ↔ Contains self.old.failing_reads (one_more self.old.reads) }
        ensures ok_state { OnOk result (self.new ≡ record self.old { reads = one_more self.old.reads }) }
        ensures err_state { OnErr result (self.new ≡ record self.old {
          reads = one_more self.old.reads;
          faults = one_more self.old.faults;
        }) }
    {
        self.reads = self.reads.saturating_add(1);
        if self.failing_reads.contains(&self.reads) {
            self.faults = self.faults.saturating_add(1);
            return Err(BlockFailed);
        }
        self.slots[slot as usize].read(words);
        Ok(())
    }

    fn write(&mut self, slot: u32, words: &[u64]) -> Result<(), BlockFailed>
        requires slot { slot < length self.old.slots }
        requires count { length words.now ≡ 1024 }

        // As at any device.
        ensures wrote { OnOk result (SetsWords slot (Some words.now) (device_of self.old) (device_of self.new)) }
        ensures failed { OnErr result (SetsWords slot None (device_of self.old) (device_of self.new)) }
        ensures counted { self.new.writes ≡ one_more self.old.writes }
        ensures unread { self.new.reads ≡ self.old.reads }
        ensures unfailed { OnOk result (self.new.faults ≡ self.old.faults) }
        ensures rose { OnErr result (Rises self.old.faults self.new.faults) }
        ensures never_falls { self.old.faults ≤ self.new.faults }

        // When it fails, and how it goes on.
        ensures fails { IsErr result ↔ Contains self.old.failing_writes (one_more self.old.writes) }
        ensures ok_state { OnOk result (self.new ≡ record self.old {
          slots = slice_set self.old.slots slot (Some words.now);
          writes = one_more self.old.writes;
        }) }
        ensures err_state { OnErr result (self.new ≡ record self.old {
          slots = slice_set self.old.slots slot None;
          writes = one_more self.old.writes;
          faults = one_more self.old.faults;
        }) }
    {
        self.writes = self.writes.saturating_add(1);
        if self.failing_writes.contains(&self.writes) {
            self.slots[slot as usize].lose();
            self.faults = self.faults.saturating_add(1);
            return Err(BlockFailed);
        }
        self.slots[slot as usize].write(words);
        Ok(())
    }

    fn faults(&self) -> u64 {
        self.faults
    }
}
