//! What is said of pages: paged out, filled, given up, cleared, or wired.

ghost use Rattle.std.specs.Prelude.{◌≡◌, ◌≢◌, ◌∷◌, [], ℕ, IfSome, IfNone, decimal};
ghost use Rattle.trace_lines.specs.Words.{seen};
ghost use Rattle.pager_model.specs.declared.entry.Want.{Want as Wanted};
ghost use Rattle.pager_model.specs.Scripts.{Script};
ghost use Rattle.pager_model.specs.PrintedText.{want_words, what_words};
ghost use Rattle.history_text.specs.HistoryText.{FitsWant, FitsWhat, IsSmall};
ghost use Rattle.history_text.specs.Lines.{NoneHas, word_of_name};

use crate::name::Name;
use crate::numbers::{three, two};
use crate::word::{flag, large, small, writing, written};
use pager_model::{Want, What};

/// What is said of a page that was paged out.
pub fn out(words: &[&[u8]]) -> Option<What>
    ensures some { IfSome result (λ what. word_of_name Name.Out ∷ seen words.now ≡ what_words what) }
    ensures fits { IfSome result (λ what. (script : Script) (c : ℕ) → FitsWhat script c what) }
    ensures none { IfNone result ((script : Script) (c : ℕ) → NoneHas script c (seen words.now) Name.Out) }
{
    let [page, word] = words else {
        return None;
    };
    let page = small(page)?;
    let written = written(word)?;
    Some(What::Out { page, written })
}

/// What is said of a failure of the backing store.
pub fn failed(words: &[&[u8]]) -> Option<What>
    ensures some { IfSome result (λ what. word_of_name Name.Failed ∷ seen words.now ≡ what_words what) }
    ensures fits { IfSome result (λ what. (script : Script) (c : ℕ) → FitsWhat script c what) }
    ensures none { IfNone result ((script : Script) (c : ℕ) → NoneHas script c (seen words.now) Name.Failed) }
{
    let [page, word, count] = words else {
        return None;
    };
    let page = small(page)?;
    let writing = writing(word)?;
    let count = large(count)?;
    Some(What::Failed {
        page,
        writing,
        count,
    })
}

/// What is said of a page that got a frame.
pub fn take(words: &[&[u8]]) -> Option<What>
    ensures some { IfSome result (λ what. word_of_name Name.Take ∷ seen words.now ≡ what_words what) }
    ensures fits { IfSome result (λ what. (script : Script) (c : ℕ) → FitsWhat script c what) }
    ensures none { IfNone result ((script : Script) (c : ℕ) → NoneHas script c (seen words.now) Name.Take) }
{
    let filled = filled_by(words)?;
    Some(What::Take {
        page: filled.page,
        frame: filled.frame,
        want: filled.want,
    })
}

/// What is said of a page that got a frame in place of a held one.
pub fn use_held(words: &[&[u8]]) -> Option<What>
    ensures some { IfSome result (λ what. word_of_name Name.UseHeld ∷ seen words.now ≡ what_words what) }
    ensures fits { IfSome result (λ what. (script : Script) (c : ℕ) → FitsWhat script c what) }
    ensures none { IfNone result ((script : Script) (c : ℕ) → NoneHas script c (seen words.now) Name.UseHeld) }
{
    let filled = filled_by(words)?;
    Some(What::UseHeld {
        page: filled.page,
        frame: filled.frame,
        want: filled.want,
    })
}

/// A page, the frame that it got, and where a reservation for it may lie.
#[derive(Clone, Copy)]
struct Filled {
    page: u32,
    frame: u32,
    want: Want,
}

/// The page, frame and want that these words are.
fn filled_by(words: &[&[u8]]) -> Option<Filled>
    ensures some { IfSome result (λ f. seen words.now ≡ decimal f.page ∷ decimal f.frame ∷ want_words f.want) }
    ensures fits { IfSome result (λ f. IsSmall f.page × IsSmall f.frame × FitsWant f.want) }
    ensures none { IfNone result ((page frame : ℕ) (want : Wanted) → IsSmall page → IsSmall frame → FitsWant want
        → seen words.now ≢ decimal page ∷ decimal frame ∷ want_words want) }
{
    let [page, frame, wanted @ ..] = words else {
        return None;
    };
    let page = small(page)?;
    let frame = small(frame)?;
    let want = wanted_by(wanted)?;
    Some(Filled { page, frame, want })
}

/// The want that these words are.
fn wanted_by(words: &[&[u8]]) -> Option<Want>
    ensures some { IfSome result (λ want. seen words.now ≡ want_words want) }
    ensures fits { IfSome result (λ want. FitsWant want) }
    ensures none { IfNone result ((want : Wanted) → FitsWant want → seen words.now ≢ want_words want) }
{
    let [low, high, cap, wired] = words else {
        return None;
    };
    want_of(low, high, cap, wired)
}

/// The want that four words are.
fn want_of(low: &[u8], high: &[u8], cap: &[u8], wired: &[u8]) -> Option<Want>
    ensures some { IfSome result (λ want. low.now ∷ high.now ∷ cap.now ∷ wired.now ∷ [] ≡ want_words want) }
    ensures fits { IfSome result (λ want. FitsWant want) }
    ensures none { IfNone result ((want : Wanted) → FitsWant want → low.now ∷ high.now ∷ cap.now ∷ wired.now ∷ [] ≢ want_words want) }
{
    let (low, high, cap) = three(low, high, cap)?;
    let wired = flag(wired)?;
    Some(Want {
        low,
        high,
        cap,
        wired,
    })
}

/// What is said of a page that gave its frame up.
pub fn give(words: &[&[u8]]) -> Option<What>
    ensures some { IfSome result (λ what. word_of_name Name.Give ∷ seen words.now ≡ what_words what) }
    ensures fits { IfSome result (λ what. (script : Script) (c : ℕ) → FitsWhat script c what) }
    ensures none { IfNone result ((script : Script) (c : ℕ) → NoneHas script c (seen words.now) Name.Give) }
{
    let (page, frame) = two(words)?;
    Some(What::Give { page, frame })
}

/// What is said of a range whose pages gave their frames up.
pub fn clear(words: &[&[u8]]) -> Option<What>
    ensures some { IfSome result (λ what. word_of_name Name.Clear ∷ seen words.now ≡ what_words what) }
    ensures fits { IfSome result (λ what. (script : Script) (c : ℕ) → FitsWhat script c what) }
    ensures none { IfNone result ((script : Script) (c : ℕ) → NoneHas script c (seen words.now) Name.Clear) }
{
    let (first, length) = two(words)?;
    Some(What::Clear { first, length })
}

/// What is said of a range whose frames were wired, or were no longer.
pub fn pin(words: &[&[u8]]) -> Option<What>
    ensures some { IfSome result (λ what. word_of_name Name.Pin ∷ seen words.now ≡ what_words what) }
    ensures fits { IfSome result (λ what. (script : Script) (c : ℕ) → FitsWhat script c what) }
    ensures none { IfNone result ((script : Script) (c : ℕ) → NoneHas script c (seen words.now) Name.Pin) }
{
    let [first, length, wired] = words else {
        return None;
    };
    let first = small(first)?;
    let length = small(length)?;
    let wired = flag(wired)?;
    Some(What::Pin {
        first,
        length,
        wired,
    })
}

/// What is said of a range that wasn't wired, and of the page for which it wasn't.
pub fn kept(words: &[&[u8]]) -> Option<What>
    ensures some { IfSome result (λ what. word_of_name Name.Kept ∷ seen words.now ≡ what_words what) }
    ensures fits { IfSome result (λ what. (script : Script) (c : ℕ) → FitsWhat script c what) }
    ensures none { IfNone result ((script : Script) (c : ℕ) → NoneHas script c (seen words.now) Name.Kept) }
{
    let [first, length, others @ ..] = words else {
        return None;
    };
    let first = small(first)?;
    let length = small(length)?;
    let (page, frame) = two(others)?;
    Some(What::Kept {
        first,
        length,
        page,
        frame,
    })
}
