//! What is said of frames that are claimed and held, and of a turn's end.

ghost use Rattle.std.specs.Prelude.{◌≡◌, ◌≢◌, ◌∷◌, [], ℕ, Option, Some, IfSome, IfNone};
ghost use Rattle.trace_lines.specs.Words.{seen};
ghost use Rattle.pager_model.specs.declared.entry.Need.{Need as Needed};
ghost use Rattle.pager_model.specs.Scripts.{Script};
ghost use Rattle.pager_model.specs.PrintedText.{need_words, what_words};
ghost use Rattle.history_text.specs.HistoryText.{FitsNeed, FitsWhat};
ghost use Rattle.history_text.specs.Lines.{NoneHas, word_of_name};

use crate::name::Name;
use crate::numbers::{one, three};
use crate::word::{flag, small, writing};
use pager_model::{Need, What};

/// What is said of a page whose frame was claimed.
pub fn claim(words: &[&[u8]]) -> Option<What>
    ensures some { IfSome result (λ what. word_of_name Name.Claim ∷ seen words.now ≡ what_words what) }
    ensures fits { IfSome result (λ what. (script : Script) (c : ℕ) → FitsWhat script c what) }
    ensures none { IfNone result ((script : Script) (c : ℕ) → NoneHas script c (seen words.now) Name.Claim) }
{
    let [space, page, frame, others @ ..] = words else {
        return None;
    };
    let (space, page, frame) = three(space, page, frame)?;
    let need = need(others)?;
    Some(What::Claim {
        space,
        page,
        frame,
        need,
    })
}

/// The need that these words are, where there are any.
fn need(words: &[&[u8]]) -> Option<Option<Need>>
    ensures some { IfSome result (λ need. seen words.now ≡ need_words need) }
    ensures fits { IfSome result (λ need. FitsNeed need) }
    ensures none { IfNone result ((need : Option Needed) → FitsNeed need → seen words.now ≢ need_words need) }
{
    match words {
        [] => Some(None),
        [word, page, kind] => {
            let need = needed(word, page, kind)?;
            Some(Some(need))
        }
        _ => None,
    }
}

/// The need that three words are.
fn needed(word: &[u8], page: &[u8], kind: &[u8]) -> Option<Need>
    ensures some { IfSome result (λ need. word.now ∷ page.now ∷ kind.now ∷ [] ≡ need_words (Some need)) }
    ensures none { IfNone result ((need : Needed) → FitsNeed (Some need) → word.now ∷ page.now ∷ kind.now ∷ [] ≢ need_words (Some need)) }
{
    if word != b"for".as_slice() {
        return None;
    }
    let page = small(page)?;
    let writing = writing(kind)?;
    Some(Need { page, writing })
}

/// What is said of a held frame that went free.
pub fn drop_held(words: &[&[u8]]) -> Option<What>
    ensures some { IfSome result (λ what. word_of_name Name.Drop ∷ seen words.now ≡ what_words what) }
    ensures fits { IfSome result (λ what. (script : Script) (c : ℕ) → FitsWhat script c what) }
    ensures none { IfNone result ((script : Script) (c : ℕ) → NoneHas script c (seen words.now) Name.Drop) }
{
    let frame = one(words)?;
    Some(What::DropHeld { frame })
}

/// What is said of a claimed frame that was found in hand.
pub fn got(words: &[&[u8]]) -> Option<What>
    ensures some { IfSome result (λ what. word_of_name Name.Got ∷ seen words.now ≡ what_words what) }
    ensures fits { IfSome result (λ what. (script : Script) (c : ℕ) → FitsWhat script c what) }
    ensures none { IfNone result ((script : Script) (c : ℕ) → NoneHas script c (seen words.now) Name.Got) }
{
    let frame = one(words)?;
    Some(What::Got { frame })
}

/// What is said of a frame that is claimed no longer.
pub fn unclaim(words: &[&[u8]]) -> Option<What>
    ensures some { IfSome result (λ what. word_of_name Name.Unclaim ∷ seen words.now ≡ what_words what) }
    ensures fits { IfSome result (λ what. (script : Script) (c : ℕ) → FitsWhat script c what) }
    ensures none { IfNone result ((script : Script) (c : ℕ) → NoneHas script c (seen words.now) Name.Unclaim) }
{
    let frame = one(words)?;
    Some(What::Unclaim { frame })
}

/// What is said where no frame could be had.
pub fn refused(words: &[&[u8]]) -> Option<What>
    ensures some { IfSome result (λ what. word_of_name Name.Refused ∷ seen words.now ≡ what_words what) }
    ensures fits { IfSome result (λ what. (script : Script) (c : ℕ) → FitsWhat script c what) }
    ensures none { IfNone result ((script : Script) (c : ℕ) → NoneHas script c (seen words.now) Name.Refused) }
{
    let [wired, claimed, held] = words else {
        return None;
    };
    let (wired, claimed, held) = three(wired, claimed, held)?;
    Some(What::Refused {
        wired,
        claimed,
        held,
    })
}

/// What is said of a turn's end.
pub fn rest(words: &[&[u8]]) -> Option<What>
    ensures some { IfSome result (λ what. word_of_name Name.Rest ∷ seen words.now ≡ what_words what) }
    ensures fits { IfSome result (λ what. (script : Script) (c : ℕ) → FitsWhat script c what) }
    ensures none { IfNone result ((script : Script) (c : ℕ) → NoneHas script c (seen words.now) Name.Rest) }
{
    let [word] = words else {
        return None;
    };
    let short = flag(word)?;
    Some(What::Rest { short })
}
