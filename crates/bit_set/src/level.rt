//! A run of words as a set of numbers: one level of the set and of its summaries.

ghost use Rattle.std.specs.Prelude.{◌≡◌, ◌+◌, ◌*◌, ◌/◌, ◌<◌, false, length, replicate, slice_index_or, slice_set, IfOk};
ghost use Rattle.std.specs.Bool.{OnTrue, OnFalse};
ghost use Rattle.bit_set.specs.Bits.{HasInWord, LacksWord, IsNextInWord};

use crate::store::Store;
use crate::word::{has_bit, lowest_from, with_bit};
use pager_model::Steps;
use std::alloc::{AllocError, Global};
use std::marker::Model;
use std::sync::ledger::Ledger;

/// A bit for each number below 64 times the number of words.
///
/// Contracts see it as a list that says of each number whether its bit is set.
#[derive(Drop)]
pub(crate) struct Level {
    store: Store,
}

impl Model for Level {
    ghost use Rattle.std.specs.Prelude.{List, Bool};
    ghost use Rattle.bit_set.specs.Bits.{bits_of};

    ghost Value = { List Bool };

    ghost view = { λ l. bits_of l.store.words.items };
}

impl Level {
    /// This many words, with no bit set.
    pub(crate) fn create(alloc: Global, words: u32) -> Result<Level, AllocError>
        ensures { IfOk result (λ level. level ≡ replicate (64 * words) false) }
    {
        let store = Store::create(alloc, words)?;
        Ok(Level { store })
    }

    /// Whether the bit is set.
    pub(crate) fn has<L: Ledger>(&self, bit: u32, steps: &mut Steps<L>) -> bool
        ensures has { result ≡ slice_index_or self.now bit false }
        ensures cost { steps.new ≡ steps.old + 1 }
    {
        has_bit(self.store.get(bit / 64, steps), bit % 64)
    }

    /// Sets or clears a bit. Answers whether its word has a bit that is set then.
    pub(crate) fn put<L: Ledger>(&mut self, bit: u32, is_set: bool, steps: &mut Steps<L>) -> bool
        requires { bit < length self.old }
        ensures bits { self.new ≡ slice_set self.old bit is_set }
        ensures some { OnTrue result (HasInWord self.new (bit / 64)) }
        ensures none { OnFalse result (LacksWord self.new (bit / 64)) }
        ensures cost { steps.new ≡ steps.old + 2 }
    {
        let word = with_bit(self.store.get(bit / 64, steps), bit % 64, is_set);
        self.store.set(bit / 64, word, steps);
        word != 0
    }

    /// The first bit that is set from this one on, in the same word.
    pub(crate) fn next_in_word<L: Ledger>(&self, bit: u32, steps: &mut Steps<L>) -> Option<u32>
        ensures next { IsNextInWord self.now bit result }
        ensures cost { steps.new ≡ steps.old + 1 }
    {
        let next = lowest_from(self.store.get(bit / 64, steps), bit % 64)?;
        Some(bit / 64 * 64 + next)
    }
}
