//! The words that stores wrote.

ghost use Rattle.std.specs.Prelude.{◌≡◌, ℕ, ◌+◌, ◌*◌, ◌<◌, ◌≤◌, ◌==◌, ◌&&◌, Bool, true, None, IfNone, IfSome, IsSome, OnOk, if◌then◌else◌};
ghost use Rattle.std.specs.BTreeMap.{get};
ghost use Rattle.std.specs.Ordering.{nat_cmp};
ghost use Rattle.followed_space.specs.Follows.{AnswersLine};
ghost use Rattle.pager_model.specs.Bounds.{space_bytes, space_pages};
ghost use Rattle.pager_model.specs.Flat.{Flat, goes, is_lawful, page_of, reply_of, word_of, words_after};
ghost use Rattle.pager_model.specs.Regions.{in_range, range_in, region_at};
ghost use Rattle.pager_model.specs.SpaceStates.{SpaceState, flat_after};
ghost use Rattle.pager_model.specs.TraceText.{IsCall};
ghost use Rattle.told_space.specs.Told.{AllowsWhat, HasWords, key_of, word_in};

use crate::calls::{is_lawful, is_within};
use followed_space::FollowedSpace;
use pager_model::{Call, NoMemory, What, page_of};
use std::collections::BTreeMap;

/// How many words a page has.
const PAGE_WORDS: u32 = 1024;

/// The words that stores wrote, by 1,024 times their page and their place in it.
pub(crate) type Words = BTreeMap<u32, u64>;

/// The key of the word at an address.
fn key_of(address: u64) -> u32
    requires { address < space_bytes }
    ensures { result ≡ key_of (page_of address) (word_of address) }
{
    page_of(address) * PAGE_WORDS + (address % 8192 / 8) as u32
}

/// The word at an address.
pub(crate) fn word_at(words: &Words, address: u64) -> u64
    requires { address < space_bytes }
    ensures { result ≡ word_in words.now (page_of address) (word_of address) }
{
    match words.get(&key_of(address)) {
        Some(word) => *word,
        None => 0,
    }
}

/// Writes the word at an address.
fn write(words: &mut Words, address: u64, word: u64) -> Result<(), NoMemory>
    requires { address < space_bytes }
    ensures { OnOk result ((p i : ℕ) → i < 1024
        → word_in words.new p i ≡ (if (p == page_of address) && (i == word_of address) then word else word_in words.old p i)) }
{
    words.insert(key_of(address), word)?;
    Ok(())
}

/// The lowest key of a word from one on and before an end.
fn next_key(words: &Words, from: u32, end: u32) -> Option<u32>
    requires { from ≤ end }
    ensures some { IfSome result (λ k. (from ≤ k) × (k < end) × IsSome (get nat_cmp words.now k)) }
    ensures none { IfNone result ((k : ℕ) → from ≤ k → k < end → get nat_cmp words.now k ≡ None) }
{
    let (key, _) = words.range(from..end).next()?;
    Some(*key)
}

/// The words of the pages of a range are zero again. The time is that of the words that are there.
fn clear(words: &mut Words, first: u32, length: u32)
    requires { first + length ≤ space_pages }
    ensures { (p i : ℕ) → i < 1024 → word_in words.new p i ≡ (if in_range first length p then 0 else word_in words.old p i) }
{
    let from = first * PAGE_WORDS;
    let end = (first + length) * PAGE_WORDS;
    while let Some(key) = next_key(words, from, end) {
        words.remove(&key);
    }
}

/// The words of the pages of a region are zero again, where a page has one.
fn clear_region(words: &mut Words, space: &FollowedSpace, page: u32)
    ensures { (p i : ℕ) → i < 1024
        → word_in words.new p i ≡ (if goes (region_at space.now.regions page) p then 0 else word_in words.old p i) }
{
    if let Some(region) = space.region_at(page) {
        clear(words, region.first, region.length);
    }
}

/// The words of the pages of a range are zero again, where it lies in one region.
fn clear_range(words: &mut Words, space: &FollowedSpace, page: u32, length: u32)
    ensures { (p i : ℕ) → i < 1024 → word_in words.new p i
        ≡ (if range_in page length (region_at space.now.regions page) && in_range page length p then 0 else word_in words.old p i) }
{
    match space.region_at(page) {
        Some(region) if is_within(page, length, region) => clear(words, page, length),
        _ => {}
    }
}

/// Does to the words what a call does that is answered lawfully: a store writes one, and the pages of a region that is unmapped, and those of a range that
/// is discarded, are zero again.
fn serve(words: &mut Words, space: &FollowedSpace, call: &Call) -> Result<(), NoMemory>
    requires { (spaces : ℕ) × IsCall spaces call.now }
    ensures { OnOk result ((f : Flat) → f.regions ≡ space.now.regions → is_lawful (reply_of f call.now) ≡ true
        → HasWords words.old f.words → HasWords words.new (words_after f call.now)) }
{
    match *call {
        Call::Store { address, word, .. } => write(words, address, word),
        Call::Unmap { page, .. } => {
            clear_region(words, space, page);
            Ok(())
        }
        Call::Discard { page, length, .. } => {
            clear_range(words, space, page, length);
            Ok(())
        }
        _ => Ok(()),
    }
}

/// Does to the words what an entry did that the space allows, but for an answer's size. Only a lawful answer changes any.
pub(crate) fn follow_words(
    words: &mut Words,
    space: &FollowedSpace,
    what: &What,
) -> Result<(), NoMemory>
    requires { AnswersLine what.now }
    ensures { OnOk result ((st : SpaceState) (frames : Bool) (c : ℕ) → st.flat.regions ≡ space.now.regions → AllowsWhat st frames c what.now
        → HasWords words.old st.flat.words → HasWords words.new (flat_after st.flat what.now).words) }
{
    let What::Answer { call, answered, .. } = what else {
        return Ok(());
    };
    if !is_lawful(answered.reply) {
        return Ok(());
    }
    serve(words, space, call)
}
