//! What is said of a call's answer.

ghost use Rattle.std.specs.Prelude.{◌≡◌, ◌≢◌, ◌∷◌, ℕ, Bool, Option, IfSome, IfNone};
ghost use Rattle.pager_model.specs.declared.reply.Answered.{Answered as Told};
ghost use Rattle.pager_model.specs.PrintedText.{answered_words, size_words, what_words};
ghost use Rattle.trace_lines.specs.Words.{seen};
ghost use Rattle.history_text.specs.HistoryText.{FitsReply, FitsSize, FitsWhat};
ghost use Rattle.history_text.specs.Lines.{NoneHas, word_of_name};

use crate::calls::TraceCalls;
use crate::name::Name;
use crate::reply::reply;
use crate::word::{below, hit};
use pager_model::{Answered, Size, What};

/// What is said of the answer of a call of this processor.
pub fn answer(words: &[&[u8]], trace: &TraceCalls, processor: u32) -> Option<What>
    ensures some { IfSome result (λ what. word_of_name Name.Answer ∷ seen words.now ≡ what_words what) }
    ensures fits { IfSome result (λ what. FitsWhat trace.now processor what) }
    ensures none { IfNone result (NoneHas trace.now processor (seen words.now) Name.Answer) }
{
    let [word, others @ ..] = words else {
        return None;
    };
    let (number, call) = trace.named(processor, word)?;
    let answered = answered(others)?;
    Some(What::Answer {
        number,
        call,
        answered,
    })
}

/// The reply that these words are, and what the access found.
fn answered(words: &[&[u8]]) -> Option<Answered>
    ensures some { IfSome result (λ a. seen words.now ≡ answered_words a) }
    ensures fits { IfSome result (λ a. FitsReply a.reply × FitsSize a.hit a.size) }
    ensures none { IfNone result ((a : Told) → FitsReply a.reply → FitsSize a.hit a.size → seen words.now ≢ answered_words a) }
{
    let (reply, others) = reply(words)?;
    let Translated { hit, size } = translated_by(others)?;
    Some(Answered { reply, hit, size })
}

/// What an access found in its processor's translations: whether it hit, and the size, where there is one.
#[derive(Clone, Copy)]
struct Translated {
    hit: bool,
    size: Option<Size>,
}

/// What these words say that an access found.
fn translated_by(words: &[&[u8]]) -> Option<Translated>
    ensures some { IfSome result (λ f. seen words.now ≡ size_words f.hit f.size) }
    ensures fits { IfSome result (λ f. FitsSize f.hit f.size) }
    ensures none { IfNone result ((hit : Bool) (size : Option ℕ) → FitsSize hit size → seen words.now ≢ size_words hit size) }
{
    match words {
        [] => Some(Translated {
            hit: false,
            size: None,
        }),
        [word, level] => {
            let hit = hit(word)?;
            let level = below(level, 4)?;
            let size = Size::at_level(level as u8);
            Some(Translated {
                hit,
                size: Some(size),
            })
        }
        _ => None,
    }
}
