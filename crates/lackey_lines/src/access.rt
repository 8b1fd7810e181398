//! Lines of accesses.

ghost use Rattle.std.specs.Prelude.{◌≡◌, ◌==◌, ◌≤◌, IfSome, [], ◌∷◌, decimal};
ghost use Rattle.std.specs.List.{position};
ghost use Rattle.lackey_lines.specs.Accesses.{IsAccessText, kind_at, kind_word, size_number, told_access, told_behind};

use crate::number::hex_number;
use trace_lines::any_number;

/// How memory is accessed.
#[derive(Clone, Copy, Debug, PartialEq, Eq)]
pub enum AccessKind {
    /// An instruction is loaded.
    Instruction,
    Load,
    Store,
    /// A load and then a store.
    Change,
}

/// An access of a program: of so many bytes from an address on.
#[derive(Clone, Copy, Debug, PartialEq, Eq)]
pub struct Access {
    pub kind: AccessKind,
    pub address: u64,
    pub size: u32,
}

/// The most bytes that an access has.
const MOST_BYTES: u64 = 512;

/// The access that a line tells, without its line feed.
pub fn access_of(line: &[u8]) -> Option<Access>
    ensures { result ≡ told_access line.now }
{
    let [first, second, third, rest @ ..] = line else {
        return None;
    };
    let kind = kind_of(*first, *second, *third)?;
    access_behind(kind, rest)
}

/// The access of a kind that the text behind it tells.
#[tactic(auto, using(crate::proofs::Parts::at_comma, crate::proofs::Parts::behind_comma))]
fn access_behind(kind: AccessKind, rest: &[u8]) -> Option<Access>
    ensures exact { result ≡ told_behind kind rest.now }
    ensures told { IfSome result (IsAccessText kind rest.now) }
{
    let at = comma_in(rest)?;
    let address = hex_number(&rest[..at])?;
    let size = size_of(&rest[at + 1..])?;
    Some(Access {
        kind,
        address,
        size,
    })
}

/// Where a text has its first comma.
fn comma_in(text: &[u8]) -> Option<usize>
    ensures { result ≡ position (λ b. b == 44) text.now }
{
    text.iter().position(|byte| *byte == b',')
}

/// The kind that three bytes are the word of.
fn kind_of(first: u8, second: u8, third: u8) -> Option<AccessKind>
    ensures exact { result ≡ kind_at first second third }
    ensures word { IfSome result (λ kind. first ∷ second ∷ third ∷ [] ≡ kind_word kind) }
{
    match (first, second, third) {
        (b'I', b' ', b' ') => Some(AccessKind::Instruction),
        (b' ', b'L', b' ') => Some(AccessKind::Load),
        (b' ', b'S', b' ') => Some(AccessKind::Store),
        (b' ', b'M', b' ') => Some(AccessKind::Change),
        _ => None,
    }
}

/// The size that a word is.
fn size_of(word: &[u8]) -> Option<u32>
    ensures exact { result ≡ size_number word.now }
    ensures word { IfSome result (λ size. (word.now ≡ decimal size) × (1 ≤ size) × (size ≤ 512)) }
{
    match any_number(word) {
        Ok(size) if 1 <= size && size <= MOST_BYTES => Some(size as u32),
        _ => None,
    }
}
