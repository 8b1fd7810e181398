//! What happened, by the words of an entry's line behind its part.

ghost use Rattle.std.specs.Prelude.{◌≡◌, ◌≢◌, ◌∷◌, IfSome, IfNone};
ghost use Rattle.pager_model.specs.declared.entry.What.{What as Happened};
ghost use Rattle.pager_model.specs.PrintedText.{what_words};
ghost use Rattle.trace_lines.specs.Words.{seen};
ghost use Rattle.history_text.specs.HistoryText.{FitsWhat};
ghost use Rattle.history_text.specs.Lines.{NoneHas, word_of_name};

use crate::answer::answer;
use crate::calls::TraceCalls;
use crate::claims::{claim, drop_held, got, refused, rest, unclaim};
use crate::name::{Name, name_of};
use crate::pages::{clear, failed, give, kept, out, pin, take, use_held};
use pager_model::What;

/// What happened by this processor, by the name of its kind and the words behind it.
pub fn what(name: &[u8], words: &[&[u8]], trace: &TraceCalls, processor: u32) -> Option<What>
    ensures some { IfSome result (λ what. name.now ∷ seen words.now ≡ what_words what) }
    ensures fits { IfSome result (λ what. FitsWhat trace.now processor what) }
    ensures none { IfNone result ((what : Happened) → FitsWhat trace.now processor what → name.now ∷ seen words.now ≢ what_words what) }
{
    let name = name_of(name)?;
    what_of(name, words, trace, processor)
}

/// What happened of this kind.
fn what_of(name: Name, words: &[&[u8]], trace: &TraceCalls, processor: u32) -> Option<What>
    ensures some { IfSome result (λ what. word_of_name name ∷ seen words.now ≡ what_words what) }
    ensures fits { IfSome result (λ what. FitsWhat trace.now processor what) }
    ensures none { IfNone result (NoneHas trace.now processor (seen words.now) name) }
{
    match name {
        Name::Answer => answer(words, trace, processor),
        Name::Out => out(words),
        Name::Failed => failed(words),
        Name::Take => take(words),
        Name::Give => give(words),
        Name::Clear => clear(words),
        Name::Claim => claim(words),
        Name::UseHeld => use_held(words),
        Name::Drop => drop_held(words),
        Name::Got => got(words),
        Name::Unclaim => unclaim(words),
        Name::Refused => refused(words),
        Name::Pin => pin(words),
        Name::Kept => kept(words),
        Name::Rest => rest(words),
    }
}
