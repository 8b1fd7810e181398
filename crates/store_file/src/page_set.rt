//! A set of the pages of a space.

ghost use Rattle.std.specs.Prelude.{◌≡◌, ℕ, ◌*◌, ◌/◌, ◌<◌, ◌≤◌, ◌&&◌, nat_le, nat_lt, true, false, length, slice_index, slice_index_or, slice_set, if◌then◌else◌, IfOk};
ghost use Rattle.std.specs.Int.{bit_at};
ghost use Rattle.pager_model.specs.Bounds.{space_pages};
ghost use Rattle.bit_set.specs.Bits.{has_bit};
ghost use Rattle.pager_model.specs.Regions.{in_range};
ghost use Rattle.store_file.specs.FileState.{no_pages};

use pager_model::PAGES;
use std::alloc::{AllocError, Global};
use std::marker::Model;

/// How many words have a bit for each page.
const WORDS: usize = PAGES as usize / 64;

/// A set of pages, with a bit for each page of a space.
///
/// Contracts see it as a list that says of each page of a space whether it is in.
#[derive(Drop)]
pub(crate) struct PageSet {
    words: Vec<u64>,
}

impl Model for PageSet {
    ghost use Rattle.std.specs.Prelude.{◌≡◌, List, Bool, length};
    ghost use Rattle.bit_set.specs.Bits.{bits_of};

    ghost Value = { List Bool };

    ghost view = { λ s. bits_of s.words.items };

    ghost invariant = { λ s. length s.words.items ≡ 16384 };
}

impl PageSet {
    /// The empty set. Its memory is all that it ever takes.
    pub(crate) fn create(alloc: Global) -> Result<PageSet, AllocError>
        ensures { IfOk result (λ set. set ≡ no_pages) }
    {
        let words = vec![in alloc; 0; WORDS]?;
        Ok(PageSet { words })
    }

    /// Whether the page is in.
    pub(crate) fn has(&self, page: u32) -> bool
        ensures { result ≡ slice_index_or self.now page false }
    {
        has_bit(word_of(&self.words, page), page % 64)
    }

    /// Puts a page of the space in.
    pub(crate) fn insert(&mut self, page: u32)
        requires { page < space_pages }
        ensures { self.new ≡ slice_set self.old page true }
    {
        self.words[(page / 64) as usize] |= 1 << (page % 64);
    }

    /// Takes the pages of a range out.
    pub(crate) fn remove_range(&mut self, first: u32, length: u32)
        ensures { (p : ℕ) → slice_index_or self.new p false ≡ (if in_range first length p then false else slice_index_or self.old p false) }
    {
        let end = first.saturating_add(length).min(PAGES);
        clear_bits(&mut self.words, first, end);
    }
}

/// The word that has the bit of a page, and 0 past the last one.
fn word_of(words: &[u64], page: u32) -> u64
    ensures { result ≡ slice_index words.now (page / 64) }
{
    words.get((page / 64) as usize).copied().unwrap_or(0)
}

/// Whether this bit of a word is set.
fn has_bit(word: u64, bit: u32) -> bool
    requires { bit < 64 }
    ensures { bit_at word bit ≡ (if result then 1 else 0) }
{
    word >> bit & 1 == 1
}

/// Clears the bits from `first` up to `end`, a word of 64 at a time.
fn clear_bits(words: &mut [u64], first: u32, end: u32)
    requires { end ≤ 64 * length words.old }
    ensures { (p : ℕ) → has_bit words.new p ≡ (if nat_le first p && nat_lt p end then false else has_bit words.old p) }
{
    for at in first / 64..end.div_ceil(64) {
        let below = at * 64;
        let word = &mut words[at as usize];
        *word = without_bits(
            *word,
            first.saturating_sub(below),
            end.saturating_sub(below),
        );
    }
}

/// The word without its bits from `first` up to `end`.
fn without_bits(word: u64, first: u32, end: u32) -> u64
    ensures { (k : ℕ) → k < 64 → bit_at result k ≡ (if nat_le first k && nat_lt k end then 0 else bit_at word k) }
{
    word & (bits_from(end) | !bits_from(first))
}

/// The word whose bits from this one on are set, and none below.
#[tactic(auto, using(crate::proofs::PageBits::ones_from, crate::proofs::PageBits::none_from))]
fn bits_from(bit: u32) -> u64
    ensures { (k : ℕ) → k < 64 → bit_at result k ≡ (if nat_le bit k then 1 else 0) }
{
    if bit < 64 { u64::MAX << bit } else { 0 }
}
