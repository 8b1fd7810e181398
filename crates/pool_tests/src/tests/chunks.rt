//! Chunks for words: what they hold, and that each has its own.
use super::{NO_MEMORY, are_all};
use pager_model::Generator;
use pager_model::chunks::{Chunk, chunks};
use std::process::Abort;

/// How many chunks are made, and the sum of the numbers below: of none, of one, of a block, and of more, up to two blocks and two more.
const SUMS: [(usize, u64); 5] = [(0, 0), (1, 0), (64, 2016), (65, 2080), (130, 8385)];

/// Writes other words to a chunk, takes them away, and writes this word at each place. Answers whether the chunk had no words first and when
/// they were taken away, and zeros when it was filled.
fn write(chunk: &mut Chunk, word: u64) -> bool {
    let was_empty = chunk.is_empty() && chunk.as_slice().is_empty();
    chunk.fill_zeros();
    chunk.as_mut_slice().fill(!word);
    chunk.clear();
    let is_empty = chunk.is_empty();
    chunk.fill_zeros();
    let is_zero = word_of(chunk) == Some(0);
    chunk.as_mut_slice().fill(word);
    was_empty && is_empty && is_zero
}

/// The word that a chunk has 1,024 times. None if it has other words.
fn word_of(chunk: &Chunk) -> Option<u64> {
    let words = chunk.as_slice();
    let word = *words.first()?;
    if words.len() != 1024 || !are_all(words, word) {
        return None;
    }
    Some(word)
}

/// Takes the chunk at a place away, or the last one where there is none at the place, and tells its word.
fn take_word(chunks: &mut Vec<Chunk>, place: usize) -> Option<u64> {
    let chunk = if place < chunks.len() {
        chunks.swap_remove(place)
    } else {
        chunks.pop()?
    };
    word_of(&chunk)
}

/// Takes the chunks away from places that are drawn, and sums up their words. None if one has other words than were written.
fn take_all(chunks: &mut Vec<Chunk>) -> Option<u64> {
    let mut random = Generator::of(3);
    let mut sum = 0u64;
    for _ in 0..chunks.len() {
        let place = random.draw(130) as usize;
        sum = sum.wrapping_add(take_word(chunks, place)?);
    }
    Some(sum)
}

/// Whether so many chunks each keep their number until they are taken away.
fn keep_numbers(chunks: &mut Vec<Chunk>, sum: u64) -> bool {
    for (chunk, number) in chunks.iter_mut().zip(0..) {
        if !write(chunk, number) {
            return false;
        }
    }
    take_all(chunks) == Some(sum) && chunks.is_empty()
}

#[test]
fn chunks_keep_their_words_and_go_in_any_order(rt: HostRuntime) {
    for (count, sum) in SUMS {
        let mut chunks = chunks(rt.alloc(), count).expect(&rt, NO_MEMORY);
        assert!(rt; chunks.len() == count && keep_numbers(&mut chunks, sum));
    }
}
