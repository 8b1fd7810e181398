//! Words that are numbers, flags, or one of two names.

ghost use Rattle.std.specs.Prelude.{◌≡◌, ◌≢◌, ◌^◌, ◌<◌, ℕ, Bool, IfSome, IfNone, decimal};
ghost use Rattle.pager_model.specs.PrintedText.{flag_word, hit_word, writing_word, written_word};

use trace_lines::any_number;

/// The number that a word is.
pub fn large(word: &[u8]) -> Option<u64>
    ensures some { IfSome result (λ n. word.now ≡ decimal n) }
    ensures none { IfNone result ((n : ℕ) → n < 2 ^ 64 → word.now ≢ decimal n) }
{
    match any_number(word) {
        Ok(number) => Some(number),
        Err(_) => None,
    }
}

/// The number of at most 32 bits that a word is.
pub fn small(word: &[u8]) -> Option<u32>
    ensures some { IfSome result (λ n. word.now ≡ decimal n) }
    ensures none { IfNone result ((n : ℕ) → n < 2 ^ 32 → word.now ≢ decimal n) }
{
    let number = large(word)?;
    if number > u64::from(u32::MAX) {
        return None;
    }
    Some(number as u32)
}

/// The number below `end` that a word is.
pub fn below(word: &[u8], end: u32) -> Option<u32>
    ensures some { IfSome result (λ n. (word.now ≡ decimal n) × (n < end)) }
    ensures none { IfNone result ((n : ℕ) → n < end → word.now ≢ decimal n) }
{
    let number = small(word)?;
    if number >= end {
        return None;
    }
    Some(number)
}

/// The flag that a word is.
pub fn flag(word: &[u8]) -> Option<bool>
    ensures some { IfSome result (λ b. word.now ≡ flag_word b) }
    ensures none { IfNone result ((b : Bool) → word.now ≢ flag_word b) }
{
    if word == b"1".as_slice() {
        Some(true)
    } else if word == b"0".as_slice() {
        Some(false)
    } else {
        None
    }
}

/// Whether a word says that a page was written.
pub fn written(word: &[u8]) -> Option<bool>
    ensures some { IfSome result (λ b. word.now ≡ written_word b) }
    ensures none { IfNone result ((b : Bool) → word.now ≢ written_word b) }
{
    if word == b"written".as_slice() {
        Some(true)
    } else if word == b"clean".as_slice() {
        Some(false)
    } else {
        None
    }
}

/// Whether a word names a write, and not a read.
pub fn writing(word: &[u8]) -> Option<bool>
    ensures some { IfSome result (λ b. word.now ≡ writing_word b) }
    ensures none { IfNone result ((b : Bool) → word.now ≢ writing_word b) }
{
    if word == b"write".as_slice() {
        Some(true)
    } else if word == b"read".as_slice() {
        Some(false)
    } else {
        None
    }
}

/// Whether a word says that an access hit.
pub fn hit(word: &[u8]) -> Option<bool>
    ensures some { IfSome result (λ b. word.now ≡ hit_word b) }
    ensures none { IfNone result ((b : Bool) → word.now ≢ hit_word b) }
{
    if word == b"hit".as_slice() {
        Some(true)
    } else if word == b"miss".as_slice() {
        Some(false)
    } else {
        None
    }
}
