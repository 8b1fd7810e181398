//! A source and a sink in memory, which fail where they are told to.
ghost use Rattle.std.specs.Prelude.{◌≡◌, ◌+◌, ◌-◌, ◌^◌, ◌<◌, ◌≤◌, ◌↔◌, ◌⊎◌, min, [], ◌++◌, length, take, drop, Some, IfOk, OnErr, IsErr, Contains, vec_len, vec_capacity};
ghost use Rattle.io_core.specs.Faults.{one_more};

use super::reading::{ReadFailed, Source};
use super::writing::{Sink, WriteFailed};
use std::marker::Model;

/// Gives the bytes that it was made of, and fails at the reads that it was told to fail at.
#[derive(Drop)]
pub struct MemorySource {
    bytes: Vec<u8>,
    // How many were given.
    at: usize,
    piece: usize,
    failing: Vec<u64>,
    reads: u64,
    faults: u64,
}

impl Model for MemorySource {
    ghost use Rattle.std.specs.Prelude.{◌-◌, ◌^◌, ◌<◌, ◌≤◌, drop, vec_len};
    ghost use Rattle.io_core.specs.MemorySource.{SourceState};

    ghost Value = { SourceState };

    ghost view = { λ s. record {
      left = drop s.at s.bytes.items;
      piece = s.piece;
      failing = s.failing.items;
      reads = s.reads;
      faults = s.faults;
    } };

    ghost invariant = { λ s. (s.at ≤ vec_len s.bytes) × (0 < s.piece) };
}

impl MemorySource {
    /// A source of these bytes, at most `piece` of them a read, which fails at the reads whose
    /// numbers, counted from 1, are in `failing`.
    pub fn of(bytes: Vec<u8>, piece: usize, failing: Vec<u64>) -> MemorySource
        requires some_piece { 0 < piece }
        ensures made { result ≡ record {
          left = bytes.items;
          piece = piece;
          failing = failing.items;
          reads = 0;
          faults = 0;
        } }
    {
        MemorySource {
            bytes,
            at: 0,
            piece,
            failing,
            reads: 0,
            faults: 0,
        }
    }
}

impl Source for MemorySource {
    ghost left = { λ s. Some s.left };

    ghost reads = { λ s. s.reads };

    ghost faults = { λ s. s.faults };

    fn read(&mut self, into: &mut [u8]) -> Result<usize, ReadFailed>
        // As at any source.
        ensures within { IfOk result (λ n. n ≤ length into.old) }
        ensures had { IfOk result (λ n. n ≤ length self.old.left) }
        ensures gave { IfOk result (λ n. take n into.new ≡ take n self.old.left) }
        ensures rest { IfOk result (λ n. Some self.new.left ≡ Some (drop n self.old.left)) }
        ensures end { IfOk result (λ n. n ≡ 0 → 0 < length into.old → self.old.left ≡ []) }
        ensures counted { self.new.reads ≡ one_more self.old.reads }
        ensures unfailed { IfOk result (λ _. self.new.faults ≡ self.old.faults) }
        ensures rose { OnErr result (self.new.faults ≡ one_more self.old.faults) }
        ensures err { OnErr result (Some self.new.left ≡ Some self.old.left) }
        ensures never_falls { self.old.faults ≤ self.new.faults }
        ensures capped { self.new.faults ≤ 2 ^ 64 - 1 }

        // When it fails, how many it gives, and how it goes on.
        ensures failed { IsErr result ↔ Contains self.old.failing (one_more self.old.reads) }
        ensures count { IfOk result
            (λ n. n ≡ min (min (length self.old.left) (length into.old)) self.old.piece) }
        ensures room { IfOk result (λ n. drop n into.new ≡ drop n into.old) }
        ensures ok_state { IfOk result (λ n. self.new ≡ record self.old {
          left = drop n self.old.left;
          reads = one_more self.old.reads;
        }) }
        ensures err_room { OnErr result (into.new ≡ into.old) }
        ensures err_state { OnErr result (self.new ≡ record self.old {
          reads = one_more self.old.reads;
          faults = one_more self.old.faults;
        }) }
    {
        self.reads = self.reads.saturating_add(1);
        if self.failing.contains(&self.reads) {
            self.faults = self.faults.saturating_add(1);
            return Err(ReadFailed);
        }
        let left = &self.bytes[self.at..];
        let n = left.len().min(into.len()).min(self.piece);
        into[..n].copy_from_slice(&left[..n]);
        self.at += n;
        Ok(n)
    }
}

/// Takes bytes into a room that it was given, up to a limit, and fails at the writes that it was
/// told to fail at. It takes no memory.
#[derive(Drop)]
pub struct MemorySink {
    room: Vec<u8>,
    // How many more bytes it takes.
    free: usize,
    failing: Vec<u64>,
    writes: u64,
    faults: u64,
}

impl Model for MemorySink {
    ghost use Rattle.std.specs.Prelude.{◌+◌, ◌-◌, ◌^◌, ◌≤◌, vec_len, vec_capacity};
    ghost use Rattle.io_core.specs.MemorySink.{SinkState};

    ghost Value = { SinkState };

    ghost view = { λ s. record {
      taken = s.room.items;
      free = s.free;
      failing = s.failing.items;
      writes = s.writes;
      faults = s.faults;
    } };

    ghost invariant = { λ s. vec_len s.room + s.free ≤ vec_capacity s.room };
}

impl MemorySink {
    /// A sink that puts at most `limit` bytes behind those of `room`, and fails at the writes whose
    /// numbers, counted from 1, are in `failing`.
    pub fn of(room: Vec<u8>, limit: usize, failing: Vec<u64>) -> MemorySink
        requires has_room { vec_len room + limit ≤ vec_capacity room }
        ensures made { result ≡ record {
          taken = room.items;
          free = limit;
          failing = failing.items;
          writes = 0;
          faults = 0;
        } }
    {
        MemorySink {
            room,
            free: limit,
            failing,
            writes: 0,
            faults: 0,
        }
    }

    /// The room's first bytes, and then what it took.
    pub fn bytes(&self) -> &[u8]
        ensures taken { result.now ≡ self.now.taken }
    {
        &self.room
    }
}

impl Sink for MemorySink {
    ghost taken = { λ s. Some s.taken };

    ghost writes = { λ s. s.writes };

    ghost faults = { λ s. s.faults };

    fn write(&mut self, piece: &[u8]) -> Result<usize, WriteFailed>
        // As at any sink.
        ensures within { IfOk result (λ n. n ≤ length piece.now) }
        ensures some { IfOk result (λ n. 0 < length piece.now → 0 < n) }
        ensures took { IfOk result
            (λ n. Some self.new.taken ≡ Some (self.old.taken ++ take n piece.now)) }
        ensures counted { self.new.writes ≡ one_more self.old.writes }
        ensures unfailed { IfOk result (λ _. self.new.faults ≡ self.old.faults) }
        ensures rose { OnErr result (self.new.faults ≡ one_more self.old.faults) }
        ensures err { OnErr result (Some self.new.taken ≡ Some self.old.taken) }
        ensures never_falls { self.old.faults ≤ self.new.faults }
        ensures capped { self.new.faults ≤ 2 ^ 64 - 1 }

        // When it fails, how many it takes, and how it goes on.
        ensures failed { IsErr result ↔ (Contains self.old.failing (one_more self.old.writes)
            ⊎ ((self.old.free ≡ 0) × (0 < length piece.now))) }
        ensures count { IfOk result (λ n. n ≡ min (length piece.now) self.old.free) }
        ensures ok_state { IfOk result (λ n. self.new ≡ record self.old {
          taken = self.old.taken ++ take n piece.now;
          free = self.old.free - n;
          writes = one_more self.old.writes;
        }) }
        ensures err_state { OnErr result (self.new ≡ record self.old {
          writes = one_more self.old.writes;
          faults = one_more self.old.faults;
        }) }
    {
        self.writes = self.writes.saturating_add(1);
        let n = piece.len().min(self.free);
        if self.failing.contains(&self.writes) || (n == 0 && !piece.is_empty()) {
            self.faults = self.faults.saturating_add(1);
            return Err(WriteFailed);
        }
        // The room has capacity for it.
        self.room.extend_from_slice(&piece[..n]).unwrap();
        self.free -= n;
        Ok(n)
    }
}
