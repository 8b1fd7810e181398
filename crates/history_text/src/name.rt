//! The names of the kinds of entries.

ghost use Rattle.std.specs.Prelude.{◌≡◌, false, IfSome, IfNone};
ghost use Rattle.std.specs.Str.{bytes_eq};
ghost use Rattle.history_text.specs.declared.name.Name.{Name as Kind};
ghost use Rattle.history_text.specs.Lines.{word_of_name};

/// The name of a kind of entry.
#[derive(Clone, Copy)]
pub enum Name {
    Answer,
    Out,
    Failed,
    Take,
    Give,
    Clear,
    Claim,
    UseHeld,
    Drop,
    Got,
    Unclaim,
    Refused,
    Pin,
    Kept,
    Rest,
}

/// The name that a word is.
pub fn name_of(word: &[u8]) -> Option<Name>
    ensures some { IfSome result (λ name. word.now ≡ word_of_name name) }
    ensures none { IfNone result ((name : Kind) → bytes_eq word.now (word_of_name name) ≡ false) }
{
    if word == b"answer".as_slice() {
        Some(Name::Answer)
    } else if word == b"out".as_slice() {
        Some(Name::Out)
    } else if word == b"failed".as_slice() {
        Some(Name::Failed)
    } else if word == b"take".as_slice() {
        Some(Name::Take)
    } else if word == b"give".as_slice() {
        Some(Name::Give)
    } else if word == b"clear".as_slice() {
        Some(Name::Clear)
    } else if word == b"claim".as_slice() {
        Some(Name::Claim)
    } else if word == b"use".as_slice() {
        Some(Name::UseHeld)
    } else if word == b"drop".as_slice() {
        Some(Name::Drop)
    } else if word == b"got".as_slice() {
        Some(Name::Got)
    } else if word == b"unclaim".as_slice() {
        Some(Name::Unclaim)
    } else if word == b"refused".as_slice() {
        Some(Name::Refused)
    } else if word == b"pin".as_slice() {
        Some(Name::Pin)
    } else if word == b"kept".as_slice() {
        Some(Name::Kept)
    } else if word == b"rest".as_slice() {
        Some(Name::Rest)
    } else {
        None
    }
}
