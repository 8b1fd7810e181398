//! The room for a copy of one page.

ghost use Rattle.std.specs.Prelude.{◌≡◌, length, IfOk, IfSome};
ghost use Rattle.std.specs.Option.{option_copied};

use pager_model::NoMemory;
use pager_model::frame::WORDS;
use std::alloc::Global;
use std::marker::Model;

/// The words of a copy, where they are known. Its memory is taken once, when it is made.
///
/// Contracts see it as the words, or nothing where they are unknown.
#[derive(Drop)]
pub(super) struct Room {
    words: Vec<u64>,
    is_known: bool,
}

impl Model for Room {
    ghost use Rattle.std.specs.Prelude.{◌≡◌, length, List, ℕ, Option, Some, None, if◌then◌else◌};

    ghost Value = { Option (List ℕ) };

    ghost view = { λ r. if r.is_known then Some r.words.items else None };

    ghost invariant = { λ r. length r.words.items ≡ 1024 };
}

impl Room {
    /// Room for these words, or for words that are unknown so far.
    pub(super) fn of(alloc: Global, copy: Option<&[u64]>) -> Result<Room, NoMemory>
        requires count { IfSome copy (λ words. length words.now ≡ 1024) }
        ensures { IfOk result (λ room. room ≡ option_copied copy.entry) }
    {
        let words = match copy {
            Some(words) => words.to_vec(alloc)?,
            None => vec![in alloc; 0; WORDS]?,
        };
        Ok(Room {
            words,
            is_known: copy.is_some(),
        })
    }

    /// The words, where they are known.
    pub(super) fn words(&self) -> Option<&[u64]>
        ensures words { option_copied result ≡ self.now }
        ensures count { IfSome result (λ words. length words.now ≡ 1024) }
    {
        if self.is_known {
            Some(self.words.as_slice())
        } else {
            None
        }
    }

    /// Makes these the words, or the words unknown.
    pub(super) fn set(&mut self, copy: Option<&[u64]>)
        requires count { IfSome copy (λ words. length words.now ≡ 1024) }
        ensures { self.new ≡ option_copied copy.entry }
    {
        if let Some(words) = copy {
            self.words.copy_from_slice(words);
        }
        self.is_known = copy.is_some();
    }
}
