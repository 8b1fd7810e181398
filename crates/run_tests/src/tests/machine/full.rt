//! A store whose writes find no memory.

ghost use Rattle.std.specs.Prelude.{true, [], Some};

use store_core::{Copied, Store, StoreFailed, WriteRefused};

/// Refuses each write, so its copies stay zero.
#[derive(Drop)]
pub(super) struct Full {
    reads: u64,
    writes: u64,
}

impl Full {
    pub(super) fn new() -> Full {
        Full {
            reads: 0,
            writes: 0,
        }
    }
}

impl Store for Full {
    ghost seen = { λ _. record { tells = true; told = true; copies = []; kept = Some []; faults = 0 } };

    ghost reads = { λ s. s.reads };

    ghost writes = { λ s. s.writes };

    #[tactic(auto, unfolding(pager_model::specs::Stored::copy_at))]
    fn read(&mut self, _page: u32, _words: &mut [u64]) -> Result<Copied, StoreFailed> {
        self.reads = self.reads.saturating_add(1);
        Ok(Copied::Zeros)
    }

    #[tactic(auto, unfolding(pager_model::specs::Stored::keeps_at))]
    fn write(&mut self, _page: u32, _words: &[u64]) -> Result<(), WriteRefused> {
        self.writes = self.writes.saturating_add(1);
        Err(WriteRefused::NoMemory)
    }

    #[tactic(auto, unfolding(pager_model::specs::Stored::copy_at))]
    fn drop_pages(&mut self, _first: u32, _length: u32) {}

    #[tactic(auto, unfolding(pager_model::specs::Stored::copy_at))]
    fn told(&self) -> bool {
        true
    }

    fn faults(&self) -> u64 {
        0
    }
}
