//! The reply in the words of an answer.

ghost use Rattle.std.specs.Prelude.{◌≡◌, ◌≢◌, ◌∷◌, ◌++◌, [], ℕ, List, IfSome, IfNone, codes, decimal};
ghost use Rattle.pager_model.specs.declared.reply.Reply.{Reply as Said};
ghost use Rattle.pager_model.specs.PrintedText.{reply_words};
ghost use Rattle.trace_lines.specs.Words.{seen};
ghost use Rattle.history_text.specs.HistoryText.{FitsReply, IsLarge, IsSmall};
ghost use Rattle.history_text.specs.Replies.{IsPlain, NoReplyIn};

use crate::numbers::three;
use crate::word::{large, small};
use pager_model::Reply;

/// The reply that the first of these words say, and the words behind it.
pub fn reply<'a>(words: &'a [&'a [u8]]) -> Option<(Reply, &'a [&'a [u8]])>
    ensures some { IfSome result (λ read. seen words.now ≡ reply_words read.0 ++ seen read.1.now) }
    ensures fits { IfSome result (λ read. FitsReply read.0) }
    ensures none { IfNone result (NoReplyIn (seen words.now)) }
{
    let [name, others @ ..] = words else {
        return None;
    };
    match plain_reply(name) {
        Some(reply) => Some((reply, others)),
        None => numbered_reply(name, others),
    }
}

/// The reply of one word that this word is.
fn plain_reply(word: &[u8]) -> Option<Reply>
    ensures some { IfSome result (λ reply. word.now ∷ [] ≡ reply_words reply) }
    ensures fits { IfSome result (λ reply. IsPlain reply) }
    ensures none { IfNone result ((reply : Said) → IsPlain reply → word.now ∷ [] ≢ reply_words reply) }
{
    if word == b"done".as_slice() {
        Some(Reply::Done)
    } else if word == b"clean".as_slice() {
        Some(Reply::Clean)
    } else if word == b"written".as_slice() {
        Some(Reply::Written)
    } else if word == b"unmapped".as_slice() {
        Some(Reply::Unmapped)
    } else if word == b"denied".as_slice() {
        Some(Reply::Denied)
    } else if word == b"overlap".as_slice() {
        Some(Reply::Overlap)
    } else if word == b"outofspace".as_slice() {
        Some(Reply::OutOfSpace)
    } else if word == b"notgrowing".as_slice() {
        Some(Reply::NotGrowing)
    } else if word == b"regionsfull".as_slice() {
        Some(Reply::RegionsFull)
    } else if word == b"nomemory".as_slice() {
        Some(Reply::NoMemory)
    } else {
        None
    }
}

/// The reply of this name with numbers, which are the first of the other words, and the words behind them.
fn numbered_reply<'a>(name: &[u8], others: &'a [&'a [u8]]) -> Option<(Reply, &'a [&'a [u8]])>
    ensures some { IfSome result (λ read. name.now ∷ seen others.now ≡ reply_words read.0 ++ seen read.1.now) }
    ensures fits { IfSome result (λ read. FitsReply read.0) }
    ensures none { IfNone result ((reply : Said) (rest : List (List ℕ)) → FitsReply reply → (IsPlain reply → ⊥)
        → name.now ∷ seen others.now ≢ reply_words reply ++ rest) }
{
    if name == b"value".as_slice() {
        value(others)
    } else if name == b"noframes".as_slice() {
        no_frames(others)
    } else if name == b"storefault".as_slice() {
        store_fault(others)
    } else if name == b"busy".as_slice() {
        busy(others)
    } else {
        None
    }
}

/// The word that a load found, and the words behind it.
fn value<'a>(words: &'a [&'a [u8]]) -> Option<(Reply, &'a [&'a [u8]])>
    ensures some { IfSome result (λ read. codes "value" ∷ seen words.now ≡ reply_words read.0 ++ seen read.1.now) }
    ensures fits { IfSome result (λ read. FitsReply read.0) }
    ensures none { IfNone result ((n : ℕ) (rest : List (List ℕ)) → IsLarge n → seen words.now ≢ decimal n ∷ rest) }
{
    let [word, others @ ..] = words else {
        return None;
    };
    let word = large(word)?;
    Some((Reply::Value(word), others))
}

/// The counts where no frame could be had, and the words behind them.
fn no_frames<'a>(words: &'a [&'a [u8]]) -> Option<(Reply, &'a [&'a [u8]])>
    ensures some { IfSome result (λ read. codes "noframes" ∷ seen words.now ≡ reply_words read.0 ++ seen read.1.now) }
    ensures fits { IfSome result (λ read. FitsReply read.0) }
    ensures none { IfNone result ((a b c : ℕ) (rest : List (List ℕ)) → IsSmall a → IsSmall b → IsSmall c
        → seen words.now ≢ decimal a ∷ decimal b ∷ decimal c ∷ rest) }
{
    let [wired, claimed, held, others @ ..] = words else {
        return None;
    };
    let (wired, claimed, held) = three(wired, claimed, held)?;
    let reply = Reply::NoFrames {
        wired,
        claimed,
        held,
    };
    Some((reply, others))
}

/// The space and the count of a store's failure, and the words behind them.
fn store_fault<'a>(words: &'a [&'a [u8]]) -> Option<(Reply, &'a [&'a [u8]])>
    ensures some { IfSome result (λ read. codes "storefault" ∷ seen words.now ≡ reply_words read.0 ++ seen read.1.now) }
    ensures fits { IfSome result (λ read. FitsReply read.0) }
    ensures none { IfNone result ((a b : ℕ) (rest : List (List ℕ)) → IsSmall a → IsLarge b
        → seen words.now ≢ decimal a ∷ decimal b ∷ rest) }
{
    let [space, count, others @ ..] = words else {
        return None;
    };
    let space = small(space)?;
    let count = large(count)?;
    Some((Reply::StoreFault { space, count }, others))
}

/// The page whose frame a processor claims, and the words behind it.
fn busy<'a>(words: &'a [&'a [u8]]) -> Option<(Reply, &'a [&'a [u8]])>
    ensures some { IfSome result (λ read. codes "busy" ∷ seen words.now ≡ reply_words read.0 ++ seen read.1.now) }
    ensures fits { IfSome result (λ read. FitsReply read.0) }
    ensures none { IfNone result ((n : ℕ) (rest : List (List ℕ)) → IsSmall n → seen words.now ≢ decimal n ∷ rest) }
{
    let [page, others @ ..] = words else {
        return None;
    };
    let page = small(page)?;
    Some((Reply::Busy { page }, others))
}
