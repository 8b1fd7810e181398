//! A set of numbers below a fixed bound. To look for a number, to put one in or out, and to find the next one are a few looks at
//! words of 64 bits, however many numbers are in. Each look at a word and each write of one counts as a step.
//!
//! Each number has a bit. Two levels of summaries stand above: a bit there says whether a word below has a bit that is set.
#![tactic(auto)]

ghost use Rattle.std.specs.Prelude.{◌≡◌, ◌+◌, ◌%◌, ◌<◌, ◌≤◌, true, false, length, replicate, slice_index_or, slice_set, IfOk};
ghost use Rattle.bit_set.specs.Bits.{IsFirstFrom, most_bound};
ghost use Rattle.bit_set.specs.Summaries.{Sums};

mod level;
mod store;
mod word;

use level::Level;
use pager_model::Steps;
use std::alloc::{AllocError, Global};
use std::marker::Model;
use std::sync::ledger::Ledger;

/// A set of numbers below a bound.
///
/// Contracts see it as a list that says of each number below the bound whether it is in.
#[derive(Drop)]
pub struct BitSet {
    bits: Level,
    words: Level,
    groups: Level,
}

impl Model for BitSet {
    ghost use Rattle.std.specs.Prelude.{List, Bool};
    ghost use Rattle.bit_set.specs.Summaries.{AreLevels};

    ghost Value = { List Bool };

    ghost view = { λ s. s.bits };

    ghost invariant = { λ s. AreLevels s.bits s.words s.groups };
}

impl BitSet {
    /// The empty set of numbers below the bound, a multiple of 64 and at most 262,144.
    pub fn create(alloc: Global, bound: u32) -> Result<BitSet, AllocError>
        requires whole { bound % 64 ≡ 0 }
        requires most { bound ≤ most_bound }
        ensures { IfOk result (λ set. set ≡ replicate bound false) }
    {
        let words = bound / 64;
        let groups = words.div_ceil(64);
        Ok(BitSet {
            bits: Level::create(alloc, words)?,
            words: Level::create(alloc, groups)?,
            groups: Level::create(alloc, 1)?,
        })
    }

    /// Whether the number is in the set.
    pub fn has<L: Ledger>(&self, number: u32, steps: &mut Steps<L>) -> bool
        ensures has { result ≡ slice_index_or self.now number false }
        ensures cost { steps.new ≡ steps.old + 1 }
    {
        self.bits.has(number, steps)
    }

    /// Puts a number into the set.
    pub fn insert<L: Ledger>(&mut self, number: u32, steps: &mut Steps<L>)
        requires { number < length self.old }
        ensures set { self.new ≡ slice_set self.old number true }
        ensures cost { steps.new ≡ steps.old + 6 }
    {
        self.put(number, true, steps);
    }

    /// Takes a number out of the set.
    pub fn remove<L: Ledger>(&mut self, number: u32, steps: &mut Steps<L>)
        requires { number < length self.old }
        ensures set { self.new ≡ slice_set self.old number false }
        ensures cost { steps.new ≡ steps.old + 6 }
    {
        self.put(number, false, steps);
    }

    /// Puts a number into the set or out of it, and writes the summaries above it.
    fn put<L: Ledger>(&mut self, number: u32, is_in: bool, steps: &mut Steps<L>)
        requires { number < length self.old }
        ensures set { self.new ≡ slice_set self.old number is_in }
        ensures cost { steps.new ≡ steps.old + 6 }
    {
        let word = self.bits.put(number, is_in, steps);
        let group = self.words.put(number / 64, word, steps);
        self.groups.put(number / 64 / 64, group, steps);
    }

    /// The first number of the set from this one on.
    pub fn first_from<L: Ledger>(&self, number: u32, steps: &mut Steps<L>) -> Option<u32>
        ensures first { IsFirstFrom self.now number result }
        ensures cost { steps.new ≤ steps.old + 5 }
    {
        let next = self.bits.next_in_word(number, steps);
        if next.is_some() {
            return next;
        }
        let word = first_word_from(&self.words, &self.groups, number / 64 + 1, steps)?;
        self.bits.next_in_word(word * 64, steps)
    }
}

/// The first word from this one on that has a bit, by the bits of the words and those of their groups.
fn first_word_from<L: Ledger>(
    words: &Level,
    groups: &Level,
    word: u32,
    steps: &mut Steps<L>,
) -> Option<u32>
    requires summed { Sums words.now groups.now }
    requires one_word { length groups.now ≤ 64 }
    ensures first { IsFirstFrom words.now word result }
    ensures cost { steps.new ≤ steps.old + 3 }
{
    let next = words.next_in_word(word, steps);
    if next.is_some() {
        return next;
    }
    let group = groups.next_in_word(word / 64 + 1, steps)?;
    words.next_in_word(group * 64, steps)
}
