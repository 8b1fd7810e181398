//! Stores whose calls wait until a call of another store has begun.

ghost use Rattle.std.specs.Prelude.{◌-◌, ◌^◌, ◌≤◌, false, [], None};

use crate::tests::machine::NO_MEMORY;
use std::process::Abort;
use std::sync::atomic::{AtomicBool, Ordering};
use std::thread;
use store_core::{Copied, Store, StoreFailed, WriteRefused};

/// How often a call that waits lets other threads run, and how often it looks at the other store's flag before each time.
const ROUNDS: u32 = 5_000;

const LOOKS: u32 = 10_000;

/// What a call does as it begins: it raises a flag, and then waits until another is raised.
#[derive(Clone, Copy)]
struct Gate<'a> {
    raises: Option<&'a AtomicBool>,
    awaits: Option<&'a AtomicBool>,
}

/// Raises none, and waits for none.
const OPEN: Gate<'static> = Gate {
    raises: None,
    awaits: None,
};

/// A store that keeps no copy. Its reads go through one gate and its writes through another, and a call that waits in vain fails.
#[derive(Drop)]
pub(super) struct Gated<'a> {
    reading: Gate<'a>,
    writing: Gate<'a>,
    reads: u64,
    writes: u64,
    faults: u64,
    ghost most: { faults ≤ 2 ^ 64 - 1 },
}

/// Two stores with these gates, for reads and for writes.
fn two_stores<'a, R: Abort + AllocGlobal>(
    rt: &R,
    gates: [(Gate<'a>, Gate<'a>); 2],
) -> Vec<Gated<'a>> {
    let mut stores = Vec::new(rt.alloc());
    for (reading, writing) in gates {
        let store = Gated {
            reading,
            writing,
            reads: 0,
            writes: 0,
            faults: 0,
        };
        stores.push(store).expect(rt, NO_MEMORY);
    }
    stores
}

/// Two stores, of which calls of each wait until one of the other has begun: the reads of both or, where writes are asked for, the first one's
/// writes and the second one's reads.
pub(super) fn calls_that_meet<'a, R: Abort + AllocGlobal>(
    rt: &R,
    first: &'a AtomicBool,
    second: &'a AtomicBool,
    writes: bool,
) -> Vec<Gated<'a>> {
    let one = Gate {
        raises: Some(first),
        awaits: Some(second),
    };
    let other = Gate {
        raises: Some(second),
        awaits: Some(first),
    };
    let gates = if writes { (OPEN, one) } else { (one, OPEN) };
    two_stores(rt, [gates, (other, OPEN)])
}

/// Two stores, of which the writes of the first wait until a read of the second has begun. Nothing else waits.
pub(super) fn write_that_awaits_a_read<'a, R: Abort + AllocGlobal>(
    rt: &R,
    begun: &'a AtomicBool,
) -> Vec<Gated<'a>> {
    let awaits = Gate {
        raises: None,
        awaits: Some(begun),
    };
    let raises = Gate {
        raises: Some(begun),
        awaits: None,
    };
    two_stores(rt, [(OPEN, awaits), (raises, OPEN)])
}

/// Whether the flag is raised, after a while at the latest. A look exchanges it for itself, which takes longer than a load, so that others have
/// time.
fn is_raised_soon(flag: &AtomicBool) -> bool {
    for _ in 0..ROUNDS {
        for _ in 0..LOOKS {
            let look = flag.compare_exchange(true, true, Ordering::SeqCst, Ordering::SeqCst);
            if look.is_ok() {
                return true;
            }
        }
        thread::yield_now();
    }
    false
}

impl Gate<'_> {
    /// Whether a call gets through, and doesn't wait in vain.
    fn lets_through(&self) -> bool {
        if let Some(flag) = self.raises {
            flag.store(true, Ordering::SeqCst);
        }
        match self.awaits {
            Some(flag) => is_raised_soon(flag),
            None => true,
        }
    }
}

impl Store for Gated<'_> {
    ghost seen = { λ s. record { tells = false; told = false; copies = []; kept = None; faults = s.faults } };

    ghost reads = { λ s. s.reads };

    ghost writes = { λ s. s.writes };

    #[tactic(auto, unfolding(pager_model::specs::Stored::keeps_at))]
    fn read(&mut self, _page: u32, _words: &mut [u64]) -> Result<Copied, StoreFailed> {
        self.reads = self.reads.saturating_add(1);
        if !self.reading.lets_through() {
            self.faults = self.faults.saturating_add(1);
            return Err(StoreFailed);
        }
        Ok(Copied::Zeros)
    }

    #[tactic(auto, unfolding(pager_model::specs::Stored::keeps_at))]
    fn write(&mut self, _page: u32, _words: &[u64]) -> Result<(), WriteRefused> {
        self.writes = self.writes.saturating_add(1);
        if !self.writing.lets_through() {
            self.faults = self.faults.saturating_add(1);
            return Err(WriteRefused::Failed);
        }
        Ok(())
    }

    fn drop_pages(&mut self, _first: u32, _length: u32) {}

    fn told(&self) -> bool {
        false
    }

    fn faults(&self) -> u64 {
        self.faults
    }
}
