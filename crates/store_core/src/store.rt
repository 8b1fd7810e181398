//! What a backing store does.

ghost use Rattle.std.specs.Prelude.{◌≡◌, ℕ, ◌-◌, ◌^◌, ◌<◌, ◌≤◌, Bool, true, false, length, Some, None, IfOk, IfSome, OnErr};
ghost use Rattle.pager_model.specs.Bounds.{space_pages};
ghost use Rattle.pager_model.specs.SpaceStates.{Rises};
ghost use Rattle.pager_model.specs.Stored.{Stored, copy_at, keeps_at, SameCopies, SetsCopy, DropsCopies, TellsZero};
ghost use Rattle.store_core.specs.CopiedWords.{copied_words};
ghost use Rattle.store_core.specs.MemoryState.{one_more};

use pager_model::NoMemory;

/// What a read gave.
#[derive(Clone, Copy, Debug, PartialEq, Eq)]
pub enum Copied {
    /// The words that were handed in are the copy's now.
    Words,
    /// The copy is of zero words, and the words that were handed in are as they were or anything else.
    Zeros,
}

/// A read failed. The store's count of faults rose.
#[derive(Clone, Copy, Debug, PartialEq, Eq)]
pub struct StoreFailed;

/// Why a copy was not written.
#[derive(Clone, Copy, Debug, PartialEq, Eq)]
pub enum WriteRefused {
    /// The write failed: the page's copy is unknown now, and the count of faults rose.
    Failed,
    /// There was no memory for a page that the store doesn't keep. Nothing changed.
    NoMemory,
}

impl From<NoMemory> for WriteRefused {
    ghost use Rattle.std.specs.Prelude.{◌≡◌};
    ghost use Rattle.store_core.specs.declared.store.WriteRefused.TheVariants.{NoMemory};

    ghost from_gives = { λ _ refused. refused ≡ NoMemory };

    fn from(_: NoMemory) -> WriteRefused {
        WriteRefused::NoMemory
    }
}

/// What keeps a copy of each page of a space. Each page begins with a copy of zero words.
///
/// It counts its faults: a call that fails raises the count, and no other does, so whoever passes a failure on can show where it came from. And it
/// counts its reads and its writes, so whoever says that it read or wrote once can be held to it.
pub trait Store {
    // What contracts see of it.
    ghost seen: { Self → Stored };

    // How many reads there were of it.
    ghost reads: { Self → ℕ };

    // How many writes there were of it, those that were refused among them.
    ghost writes: { Self → ℕ };

    // Whether it keeps every page of a space for good, so that no write of one takes memory. One that doesn't say so may lack memory.
    ghost lasts: { Bool } = { false };

    /// Reads the copy of a page into `words`, or tells that it is zero. Where it fails, or the copy is unknown, `words` may be anything.
    fn read(&mut self, page: u32, words: &mut [u64]) -> Result<Copied, StoreFailed>
        requires count { length words.old ≡ 1024 }

        // Where it tells its copies, and this one is known.
        ensures read { IfOk result
            (λ copied. (seen self.old).tells ≡ true → IfSome (copy_at (seen self.old) page) (λ copy. copied_words copied words.new ≡ copy)) }

        ensures same { SameCopies (seen self.old) (seen self.new) }
        ensures counted { reads self.new ≡ one_more (reads self.old) }
        ensures unwritten { writes self.new ≡ writes self.old }
        ensures unfailed { IfOk result (λ _. (seen self.new).faults ≡ (seen self.old).faults) }
        ensures rose { OnErr result (Rises (seen self.old).faults (seen self.new).faults) }
        ensures never_falls { (seen self.old).faults ≤ (seen self.new).faults }
        ensures capped { (seen self.new).faults ≤ 2 ^ 64 - 1 };

    /// Makes these words the copy of a page, which it keeps from then on.
    fn write(&mut self, page: u32, words: &[u64]) -> Result<(), WriteRefused>
        requires count { length words.now ≡ 1024 }
        ensures wrote { IfOk result
            (λ _. SetsCopy page (Some words.now) (seen self.old) (seen self.new) × (keeps_at (seen self.new) page ≡ true)) }
        ensures failed { result ≡ Err WriteRefused.Failed
            → SetsCopy page None (seen self.old) (seen self.new) × Rises (seen self.old).faults (seen self.new).faults }
        ensures no_memory { result ≡ Err WriteRefused.NoMemory
            → (keeps_at (seen self.old) page ≡ false) × SameCopies (seen self.old) (seen self.new)
            × ((seen self.new).faults ≡ (seen self.old).faults) }
        ensures lasting { result ≡ Err WriteRefused.NoMemory → page < space_pages → lasts ≡ false }
        ensures counted { writes self.new ≡ one_more (writes self.old) }
        ensures unread { reads self.new ≡ reads self.old }
        ensures unfailed { IfOk result (λ _. (seen self.new).faults ≡ (seen self.old).faults) }
        ensures never_falls { (seen self.old).faults ≤ (seen self.new).faults }
        ensures capped { (seen self.new).faults ≤ 2 ^ 64 - 1 };

    /// Makes the copies of `length` pages from `first` on zero.
    fn drop_pages(&mut self, first: u32, length: u32)
        ensures dropped { DropsCopies first length (seen self.old) (seen self.new) }
        ensures unread { reads self.new ≡ reads self.old }
        ensures unwritten { writes self.new ≡ writes self.old };

    /// Whether it says that it tells its copies and that all of them are zero.
    fn told(&self) -> bool
        ensures told { result ≡ (seen self.now).told }
        ensures zero { result ≡ true → TellsZero (seen self.now) };

    /// How many faults it has had, at most 2^64 - 1.
    fn faults(&self) -> u64
        ensures faults { result ≡ (seen self.now).faults }
        ensures capped { (seen self.now).faults ≤ 2 ^ 64 - 1 };
}
