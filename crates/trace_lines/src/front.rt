//! Calls whose arguments are numbers alone, read in one pass over their bytes.
ghost use Rattle.std.specs.Prelude.{◌≡◌, ◌%◌, ◌<◌, ◌≤◌, ℕ, [], ◌∷◌, ◌++◌, IfSome, codes, decimal, length, take};
ghost use Rattle.std.specs.List.{join_with_byte};
ghost use Rattle.std.specs.Str.Parse.{digits_value};
ghost use Rattle.pager_model.specs.TraceText.{HasLine, IsCall, IsLine, call_line, call_words, line_words};
ghost use Rattle.trace_lines.specs.Heads.{word_of_name};
ghost use Rattle.trace_lines.specs.Words.{AreDigits, spaced};

use crate::line::{ADDRESSES, Head, Name};
use crate::word::{digit_of, is_plain};
use pager_model::{Call, Line, PAGES};

/// How many digits are read at most. The numbers that so many write are below 2^64.
const MOST: usize = 19;

/// The number that the first digits of a text write, and how many these are.
fn digits_at_front(text: &[u8]) -> (u64, usize)
    ensures within { result.1 ≤ length text.now }
    ensures digits { AreDigits text.now result.1 }
    ensures value { result.0 ≡ digits_value 10 (take result.1 text.now) }
{
    let most = text.len().min(MOST);
    let mut number = 0;
    for at in 0..most {
        let Some(digit) = digit_of(text[at]) else {
            return (number, at);
        };
        number = number * 10 + digit;
    }
    (number, most)
}

/// The number that a text begins with, and what stands behind its digits.
fn number_at_front(text: &[u8]) -> Option<(u64, &[u8])>
    ensures { IfSome result (λ parts. text.now ≡ decimal parts.0 ++ parts.1.now) }
{
    let (number, count) = digits_at_front(text);
    let (word, rest) = text.split_at(count);
    if is_plain(word) {
        Some((number, rest))
    } else {
        None
    }
}

/// What stands behind the space that a text begins with.
fn behind_space(text: &[u8]) -> Option<&[u8]>
    ensures { IfSome result (λ rest. text.now ≡ 32 ∷ rest.now) }
{
    match text {
        [b' ', rest @ ..] => Some(rest),
        _ => None,
    }
}

/// The number behind the space that a text begins with, and what stands behind its digits.
fn argument_at_front(text: &[u8]) -> Option<(u64, &[u8])>
    ensures { IfSome result (λ parts. text.now ≡ 32 ∷ (decimal parts.0 ++ parts.1.now)) }
{
    number_at_front(behind_space(text)?)
}

/// The same, for a number below this one.
fn small_at_front(text: &[u8], end: u32) -> Option<(u32, &[u8])>
    ensures range { IfSome result (λ parts. parts.0 < end) }
    ensures text { IfSome result (λ parts. text.now ≡ 32 ∷ (decimal parts.0 ++ parts.1.now)) }
{
    let (number, rest) = argument_at_front(text)?;
    if number < u64::from(end) {
        Some((number as u32, rest))
    } else {
        None
    }
}

/// The name that a text begins with, if it is that of a call that has numbers alone and is made often.
fn name_at_front(text: &[u8]) -> Option<(Name, &[u8])>
    ensures { IfSome result (λ parts. text.now ≡ word_of_name parts.0 ++ parts.1.now) }
{
    match text {
        [b'l', b'o', b'a', b'd', rest @ ..] => Some((Name::Load, rest)),
        [b's', b't', b'o', b'r', b'e', rest @ ..] => Some((Name::Store, rest)),
        [b's', b'y', b'n', b'c', rest @ ..] => Some((Name::Sync, rest)),
        [b'e', b'v', b'i', b'c', b't', rest @ ..] => Some((Name::Evict, rest)),
        _ => None,
    }
}

/// A space and the address of a word of it, each with a space before it, and what stands behind them.
fn space_and_address(text: &[u8], spaces: u32) -> Option<(u32, u64, &[u8])>
    ensures range { IfSome result (λ parts. (parts.0 < spaces) × (parts.1 % 8 ≡ 0) × (parts.1 < ADDRESSES)) }
    ensures text { IfSome result (λ parts. text.now ≡ spaced (decimal parts.0 ∷ decimal parts.1 ∷ []) ++ parts.2.now) }
{
    let (space, rest) = small_at_front(text, spaces)?;
    let (address, rest) = argument_at_front(rest)?;
    if address % 8 == 0 && address < ADDRESSES {
        Some((space, address, rest))
    } else {
        None
    }
}

/// A space and a page of it, each with a space before it, and what stands behind them.
fn space_and_page(text: &[u8], spaces: u32) -> Option<(u32, u32, &[u8])>
    ensures range { IfSome result (λ parts. (parts.0 < spaces) × (parts.1 < PAGES)) }
    ensures text { IfSome result (λ parts. text.now ≡ spaced (decimal parts.0 ∷ decimal parts.1 ∷ []) ++ parts.2.now) }
{
    let (space, rest) = small_at_front(text, spaces)?;
    let (page, rest) = small_at_front(rest, PAGES)?;
    Some((space, page, rest))
}

/// The store whose arguments a text begins with, and what stands behind them.
fn store_at_front(text: &[u8], spaces: u32) -> Option<(Call, &[u8])>
    ensures range { IfSome result (λ parts. IsCall spaces parts.0 × ((version : ℕ) → HasLine version parts.0)) }
    ensures text { IfSome result (λ parts. 32 ∷ (codes "store" ++ text.now) ≡ spaced (call_words parts.0) ++ parts.1.now) }
{
    let (space, address, rest) = space_and_address(text, spaces)?;
    let (word, rest) = argument_at_front(rest)?;
    let call = Call::Store {
        space,
        address,
        word,
    };
    Some((call, rest))
}

/// The call of this name whose arguments a text begins with, and what stands behind them.
fn named_at_front(name: Name, text: &[u8], spaces: u32) -> Option<(Call, &[u8])>
    ensures range { IfSome result (λ parts. IsCall spaces parts.0 × ((version : ℕ) → HasLine version parts.0)) }
    ensures text { IfSome result (λ parts. 32 ∷ (word_of_name name ++ text.now) ≡ spaced (call_words parts.0) ++ parts.1.now) }
{
    match name {
        Name::Load => {
            let (space, address, rest) = space_and_address(text, spaces)?;
            Some((Call::Load { space, address }, rest))
        }
        Name::Store => store_at_front(text, spaces),
        Name::Sync => {
            let (space, page, rest) = space_and_page(text, spaces)?;
            Some((Call::Sync { space, page }, rest))
        }
        Name::Evict => {
            let (space, page, rest) = space_and_page(text, spaces)?;
            Some((Call::Evict { space, page }, rest))
        }
        _ => None,
    }
}

/// The call that a text begins with, in a trace of so many processors and spaces, and what stands behind its last number. `None` where it isn't
/// one of those that are made often, or is none.
pub fn call_at_front(text: &[u8], processors: u32, spaces: u32) -> Option<(Line, &[u8])>
    ensures range { IfSome result (λ parts. (version : ℕ) → IsLine version processors spaces parts.0) }
    ensures text { IfSome result (λ parts. text.now ≡ join_with_byte 32 (line_words parts.0) ++ parts.1.now) }
{
    let (processor, rest) = number_at_front(text)?;
    if processor >= u64::from(processors) {
        return None;
    }
    let (name, rest) = name_at_front(behind_space(rest)?)?;
    let (call, rest) = named_at_front(name, rest, spaces)?;
    let line = Line {
        processor: processor as u32,
        call,
    };
    Some((line, rest))
}

/// The call of the first line of a text, and the text behind that line. `None` where the line is none of those that are made often, or is no call.
pub fn cut_call<'a>(text: &'a [u8], head: &Head) -> Option<(Line, &'a [u8])>
    ensures range { IfSome result (λ parts. IsLine head.now.version head.now.processors head.now.spaces parts.0) }
    ensures text { IfSome result (λ parts. text.now ≡ call_line parts.0 ++ parts.1.now) }
{
    let (call, rest) = call_at_front(text, head.processors, head.spaces)?;
    match rest {
        [b'\n', after @ ..] => Some((call, after)),
        _ => None,
    }
}
