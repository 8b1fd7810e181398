//! What was read and written.

ghost use Rattle.std.specs.Prelude.{◌≡◌, ◌+◌, ◌^◌, ◌<◌, length};
ghost use Rattle.lackey_regions.specs.LineCalls.{accesses, accesses_of};

use pager_model::{Call, Line};

/// Counts of lines that were read, and of calls that were written.
#[derive(Clone, Copy, Debug, Default, PartialEq, Eq)]
pub struct Counts {
    pub lines: u64,
    pub skipped: u64,
    pub accesses: u64,
    pub maps: u64,
    pub grows: u64,
    pub unmaps: u64,
    pub protects: u64,
    pub discards: u64,
}

impl Counts {
    /// Counts calls.
    pub fn add(&mut self, calls: &[Line])
        ensures accesses { self.old.accesses + length (accesses calls.now) < 2 ^ 64 → self.new.accesses ≡ self.old.accesses + length (accesses calls.now) }
        ensures lines { self.new.lines ≡ self.old.lines }
        ensures skipped { self.new.skipped ≡ self.old.skipped }
    {
        for line in calls {
            self.add_call(&line.call);
        }
    }

    /// Counts a call.
    fn add_call(&mut self, call: &Call)
        ensures accesses { self.old.accesses + length (accesses_of call.now) < 2 ^ 64 → self.new.accesses ≡ self.old.accesses + length (accesses_of call.now) }
        ensures lines { self.new.lines ≡ self.old.lines }
        ensures skipped { self.new.skipped ≡ self.old.skipped }
    {
        match call {
            Call::Load { .. } | Call::Store { .. } => count(&mut self.accesses),
            Call::Map { .. } => count(&mut self.maps),
            Call::Grow { .. } => count(&mut self.grows),
            Call::Unmap { .. } => count(&mut self.unmaps),
            Call::Protect { .. } => count(&mut self.protects),
            Call::Discard { .. } => count(&mut self.discards),
            _ => {}
        }
    }

    /// How many calls were written.
    pub fn calls(&self) -> u64 {
        self.accesses
            .saturating_add(self.maps)
            .saturating_add(self.grows)
            .saturating_add(self.unmaps)
            .saturating_add(self.protects)
            .saturating_add(self.discards)
    }
}

/// Counts one more.
fn count(counted: &mut u64)
    ensures { counted.old + 1 < 2 ^ 64 → counted.new ≡ counted.old + 1 }
{
    *counted = counted.saturating_add(1);
}
