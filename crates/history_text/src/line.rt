//! The entry that a line says.

ghost use Rattle.std.specs.Prelude.{◌≡◌, ◌≢◌, ◌↔◌, ◌∷◌, IsTrue, IfSome, IfNone, decimal};
ghost use Rattle.pager_model.specs.declared.entry.Entry.{Entry as Made};
ghost use Rattle.trace_lines.specs.Words.{seen, words_of};
ghost use Rattle.history_text.specs.HistoryText.{IsEntryOf, entry_words, unnumbered_words};
ghost use Rattle.history_text.specs.Refusals.{MayStand};

use crate::calls::TraceCalls;
use crate::part::{Part, part_of};
use crate::what::what;
use crate::word::{below, large};
use pager_model::Entry;
use trace_lines::words;

/// The entry of this number that a line of a history of the trace says.
pub fn entry(line: &[u8], number: u64, trace: &TraceCalls) -> Option<Entry>
    ensures is { IfSome result (λ entry. IsEntryOf trace.now entry) }
    ensures words { IfSome result (λ entry. words_of line.now ≡ entry_words number entry) }
    ensures none { IfNone result (MayStand trace.now number line.now → ⊥) }
{
    let words = words(line)?;
    entry_of(words.as_slice(), number, trace)
}

/// The entry of this number that the words of a line say.
fn entry_of(words: &[&[u8]], number: u64, trace: &TraceCalls) -> Option<Entry>
    ensures is { IfSome result (λ entry. IsEntryOf trace.now entry) }
    ensures words { IfSome result (λ entry. seen words.now ≡ entry_words number entry) }
    ensures none { IfNone result ((entry : Made) → IsEntryOf trace.now entry → seen words.now ≢ entry_words number entry) }
{
    let [place, processor, parts, name, others @ ..] = words else {
        return None;
    };
    if !is_number(place, number) {
        return None;
    }
    entry_behind(processor, parts, name, others, trace)
}

/// Whether a word is this number.
fn is_number(word: &[u8], number: u64) -> bool
    ensures { IsTrue result ↔ word.now ≡ decimal number }
{
    match large(word) {
        Some(found) => found == number,
        None => false,
    }
}

/// The entry that the words behind its number say.
fn entry_behind(
    processor: &[u8],
    parts: &[u8],
    name: &[u8],
    words: &[&[u8]],
    trace: &TraceCalls,
) -> Option<Entry>
    ensures is { IfSome result (λ entry. IsEntryOf trace.now entry) }
    ensures words { IfSome result (λ entry. processor.now ∷ parts.now ∷ name.now ∷ seen words.now ≡ unnumbered_words entry) }
    ensures none { IfNone result ((entry : Made) → IsEntryOf trace.now entry
        → processor.now ∷ parts.now ∷ name.now ∷ seen words.now ≢ unnumbered_words entry) }
{
    let processor = below(processor, trace.actors())?;
    let Part { space, frames } = part_of(parts, trace.spaces())?;
    let what = what(name, words, trace, processor)?;
    Some(Entry {
        processor,
        space,
        frames,
        what,
    })
}
