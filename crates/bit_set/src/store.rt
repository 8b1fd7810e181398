//! The one way to look at a word of the set, or to write one. Each is a step.

ghost use Rattle.std.specs.Prelude.{◌≡◌, ◌+◌, ◌<◌, length, replicate, slice_index, slice_set, IfOk};

use pager_model::Steps;
use std::alloc::{AllocError, Global};
use std::sync::ledger::Ledger;

/// Words of 64 bits.
#[derive(Drop)]
pub(crate) struct Store {
    words: Vec<u64>,
}

impl Store {
    /// This many words, each 0.
    pub(crate) fn create(alloc: Global, words: u32) -> Result<Store, AllocError>
        ensures { IfOk result (λ s. s.words.items ≡ replicate words 0) }
    {
        let words = vec![in alloc; 0; words as usize]?;
        Ok(Store { words })
    }

    /// The word of this number, and 0 past the last one.
    pub(crate) fn get<L: Ledger>(&self, word: u32, steps: &mut Steps<L>) -> u64
        ensures word { result ≡ slice_index self.now.words.items word }
        ensures cost { steps.new ≡ steps.old + 1 }
    {
        steps.step();
        self.words.get(word as usize).copied().unwrap_or(0)
    }

    /// Writes the word of this number.
    pub(crate) fn set<L: Ledger>(&mut self, word: u32, bits: u64, steps: &mut Steps<L>)
        requires { word < length self.old.words.items }
        ensures words { self.new.words.items ≡ slice_set self.old.words.items word bits }
        ensures cost { steps.new ≡ steps.old + 1 }
    {
        steps.step();
        self.words[word as usize] = bits;
    }
}
