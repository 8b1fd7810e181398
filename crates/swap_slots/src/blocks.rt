//! What a block device does.

ghost use Rattle.std.specs.Prelude.{◌≡◌, ◌<◌, ◌≤◌, true, length, Some, None, IfSome, OnOk, OnErr};
ghost use Rattle.pager_model.specs.SpaceStates.{Rises};
ghost use Rattle.store_core.specs.MemoryState.{one_more};
ghost use Rattle.swap_slots.specs.Devices.{Device, words_at, SameWords, SetsWords};

/// A read or a write of a slot failed. The device's count of faults rose.
#[derive(Clone, Copy, Debug, PartialEq, Eq)]
pub struct BlockFailed;

/// A device of slots, numbered from 0, of 1,024 words each.
///
/// It counts its faults: a call that fails raises the count, and no other does. And it counts its reads and its writes, so whoever says that it read
/// or wrote once can be held to it. How many slots there are, and whether it tells their words, never changes.
pub trait Blocks {
    // What contracts see of it.
    ghost device: { Self → Device };

    /// How many slots it has.
    fn slots(&self) -> u32
        ensures slots { result ≡ (device self.now).slots };

    /// Whether it tells the words of its slots.
    fn tells(&self) -> bool
        ensures tells { result ≡ (device self.now).tells };

    /// Reads the words of a slot. Where it fails, or they are unknown, `words` may be anything.
    fn read(&mut self, slot: u32, words: &mut [u64]) -> Result<(), BlockFailed>
        requires slot { slot < (device self.old).slots }
        requires count { length words.old ≡ 1024 }
        ensures read { OnOk result
            ((device self.old).tells ≡ true → IfSome (words_at (device self.old) slot) (λ known. words.new ≡ known)) }
        ensures same { SameWords (device self.old) (device self.new) }
        ensures counted { (device self.new).reads ≡ one_more (device self.old).reads }
        ensures unwritten { (device self.new).writes ≡ (device self.old).writes }
        ensures unfailed { OnOk result ((device self.new).faults ≡ (device self.old).faults) }
        ensures rose { OnErr result (Rises (device self.old).faults (device self.new).faults) }
        ensures never_falls { (device self.old).faults ≤ (device self.new).faults };

    /// Makes these the words of a slot.
    fn write(&mut self, slot: u32, words: &[u64]) -> Result<(), BlockFailed>
        requires slot { slot < (device self.old).slots }
        requires count { length words.now ≡ 1024 }
        ensures wrote { OnOk result (SetsWords slot (Some words.now) (device self.old) (device self.new)) }
        ensures failed { OnErr result (SetsWords slot None (device self.old) (device self.new)) }
        ensures counted { (device self.new).writes ≡ one_more (device self.old).writes }
        ensures unread { (device self.new).reads ≡ (device self.old).reads }
        ensures unfailed { OnOk result ((device self.new).faults ≡ (device self.old).faults) }
        ensures rose { OnErr result (Rises (device self.old).faults (device self.new).faults) }
        ensures never_falls { (device self.old).faults ≤ (device self.new).faults };

    /// How many faults it has had.
    fn faults(&self) -> u64
        ensures faults { result ≡ (device self.now).faults };
}
