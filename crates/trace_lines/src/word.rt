//! Words, and what they say.
ghost use Rattle.std.specs.Prelude.{◌≡◌, ◌==◌, ◌+◌, ◌-◌, ◌*◌, ◌^◌, ◌%◌, ◌<◌, ◌≤◌, ◌++◌, ◌∷◌, [], length, true, false, IsTrue, ◌↔◌, IfSome, IfNone, IfOk, decimal};
ghost use Rattle.std.specs.List.{position, slice_split};
ghost use Rattle.pager_model.specs.TraceText.{kind_word, rights_word, sizes_word};
ghost use Rattle.trace_lines.specs.Forms.{number_of, number_in, may_stand, any_kind, any_rights, any_sizes};
ghost use Rattle.trace_lines.specs.Words.{IsPlain, seen, words_of};

use crate::cause::LineCause;
use arrayvec::ArrayVec;
use pager_model::{Kind, Rights, Sizes};
use std::ops::Range;

/// The most words that a line of a text has: seven of a trace, eleven of a history.
pub const MAX_WORDS: usize = 11;

/// Where a byte first stands.
fn find(text: &[u8], wanted: u8) -> Option<usize>
    ensures { result ≡ position (λ b. b == wanted) text.now }
{
    text.iter().position(|byte| *byte == wanted)
}

/// The bytes before the first byte `end`, and those after it.
pub fn cut(text: &[u8], end: u8) -> Option<(&[u8], &[u8])>
    ensures parts { IfSome result (λ parts. text.now ≡ parts.0.now ++ end ∷ parts.1.now) }
    ensures first { IfSome result
        (λ parts. slice_split (λ b. b == end) text.now ≡ parts.0.now ∷ slice_split (λ b. b == end) parts.1.now) }
    ensures none { IfNone result (slice_split (λ b. b == end) text.now ≡ text.now ∷ []) }
{
    let at = find(text, end)?;
    Some((&text[..at], &text[at + 1..]))
}

/// The words of a line, where there are no more than a form has.
pub fn words(line: &[u8]) -> Option<ArrayVec<&[u8], MAX_WORDS>>
    ensures words { IfSome result (λ words. seen words.items ≡ words_of line.now) }
    ensures none { IfNone result (MAX_WORDS < length (words_of line.now)) }
{
    let mut words = ArrayVec::new();
    let mut rest = line;
    while let Some((word, after)) = cut(rest, b' ') {
        if words.is_full() {
            return None;
        }
        words.push(word);
        rest = after;
    }
    if words.is_full() {
        return None;
    }
    words.push(rest);
    Some(words)
}

/// Whether a word has a byte, and no zero before others.
pub fn is_plain(word: &[u8]) -> bool
    ensures { IsTrue result ↔ IsPlain word.now }
{
    !matches!(word, [] | [b'0', _, ..])
}

/// The digit that a byte is.
pub fn digit_of(byte: u8) -> Option<u64>
    ensures some { IfSome result (λ digit. (48 ≤ byte) × (byte ≤ 57) × (digit ≡ byte - 48)) }
    ensures none { IfNone result (48 ≤ byte → byte ≤ 57 → ⊥) }
{
    if byte.is_ascii_digit() {
        Some(u64::from(byte - b'0'))
    } else {
        None
    }
}

/// The number that a digit behind this number makes, below 2^64.
fn with_digit(number: u64, digit: u64) -> Option<u64>
    ensures some { IfSome result (λ n. n ≡ number * 10 + digit) }
    ensures none { IfNone result (2 ^ 64 ≤ number * 10 + digit) }
{
    number.checked_mul(10)?.checked_add(digit)
}

/// The number that a word is: decimal digits with no sign and no leading zero, below 2^64.
fn decimal_of(word: &[u8]) -> Option<u64>
    ensures { result ≡ number_of word.now }
{
    if !is_plain(word) {
        return None;
    }
    let mut number = 0;
    for byte in word {
        number = with_digit(number, digit_of(*byte)?)?;
    }
    Some(number)
}

/// The number that a word is, whichever it is.
#[tactic(auto, using(crate::proofs::Numbers::any_numbers))]
pub fn any_number(word: &[u8]) -> Result<u64, LineCause>
    ensures exact { result ≡ number_in 1 0 (2 ^ 64) word.now }
    ensures found { IfOk result (λ n. word.now ≡ decimal n) }
{
    match decimal_of(word) {
        Some(n) => Ok(n),
        None => Err(LineCause::Number),
    }
}

/// The number that a word is, a multiple of `step` in this range.
#[tactic(auto, using(crate::proofs::Numbers::numbers))]
pub fn number(word: &[u8], step: u64, range: Range<u64>) -> Result<u64, LineCause>
    requires { 0 < step }
    ensures exact { result ≡ number_in step range.start range.end word.now }
    ensures found { IfOk result (λ n. (word.now ≡ decimal n) × (n % step ≡ 0) × (range.start ≤ n) × (n < range.end)) }
{
    match decimal_of(word) {
        Some(n) if n % step == 0 && range.contains(&n) => Ok(n),
        Some(_) => Err(LineCause::Range),
        None => Err(LineCause::Number),
    }
}

/// The same, for a range of small numbers.
pub fn small(word: &[u8], step: u32, range: Range<u32>) -> Result<u32, LineCause>
    requires { 0 < step }
    ensures exact { result ≡ number_in step range.start range.end word.now }
    ensures found { IfOk result (λ n. (word.now ≡ decimal n) × (n % step ≡ 0) × (range.start ≤ n) × (n < range.end)) }
{
    let n = number(word, step.into(), range.start.into()..range.end.into())?;
    Ok(n as u32)
}

/// The kind that a word names.
pub fn kind(word: &[u8]) -> Option<Kind>
    ensures named { IfSome result (λ kind. word.now ≡ kind_word kind) }
    ensures some { IfSome result (λ kind. may_stand any_kind word.now ≡ true) }
    ensures none { IfNone result (may_stand any_kind word.now ≡ false) }
{
    if word == b"fixed".as_slice() {
        Some(Kind::Fixed)
    } else if word == b"growing".as_slice() {
        Some(Kind::Growing)
    } else if word == b"wired".as_slice() {
        Some(Kind::Wired)
    } else {
        None
    }
}

/// The rights that a word names.
pub fn rights(word: &[u8]) -> Option<Rights>
    ensures named { IfSome result (λ rights. word.now ≡ rights_word rights) }
    ensures some { IfSome result (λ rights. may_stand any_rights word.now ≡ true) }
    ensures none { IfNone result (may_stand any_rights word.now ≡ false) }
{
    if word == b"none".as_slice() {
        Some(Rights::NoAccess)
    } else if word == b"read".as_slice() {
        Some(Rights::Read)
    } else if word == b"write".as_slice() {
        Some(Rights::Write)
    } else {
        None
    }
}

/// The page sizes that a word names.
pub fn page_sizes(word: &[u8]) -> Option<Sizes>
    ensures named { IfSome result (λ sizes. word.now ≡ sizes_word sizes) }
    ensures some { IfSome result (λ sizes. may_stand any_sizes word.now ≡ true) }
    ensures none { IfNone result (may_stand any_sizes word.now ≡ false) }
{
    if word == b"0".as_slice() {
        Some(Sizes::of(false, false, false))
    } else if word == b"01".as_slice() {
        Some(Sizes::of(true, false, false))
    } else if word == b"02".as_slice() {
        Some(Sizes::of(false, true, false))
    } else if word == b"03".as_slice() {
        Some(Sizes::of(false, false, true))
    } else if word == b"012".as_slice() {
        Some(Sizes::of(true, true, false))
    } else if word == b"013".as_slice() {
        Some(Sizes::of(true, false, true))
    } else if word == b"023".as_slice() {
        Some(Sizes::of(false, true, true))
    } else if word == b"0123".as_slice() {
        Some(Sizes::of(true, true, true))
    } else {
        None
    }
}
