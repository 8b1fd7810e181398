//! Chunks that two threads have.
use super::NO_MEMORY;
use pager_model::chunks::{Chunk, chunks};
use std::alloc::Global;
use std::process::Abort;
use std::thread::{Threads, join};

/// The sum of words.
fn total(words: &[u64]) -> u64 {
    let mut sum = 0u64;
    for word in words {
        sum = sum.wrapping_add(*word);
    }
    sum
}

/// Writes every chunk, sums up their words, and drops them.
fn sum_of(chunks: Vec<Chunk>) -> u64 {
    let mut chunks = chunks;
    let mut sum = 0u64;
    for chunk in chunks.iter_mut() {
        chunk.fill_zeros();
        let words = chunk.as_mut_slice();
        words.fill(3);
        sum = sum.wrapping_add(total(words));
    }
    sum
}

/// Two threads write and drop chunks of the same blocks, every second one each.
fn by_two<R: Threads + Sync + Abort>(rt: &R, alloc: Global, count: usize) -> (u64, u64) {
    let mut first = Vec::new(alloc);
    let mut second = Vec::new(alloc);
    for chunk in chunks(alloc, count).expect(rt, NO_MEMORY) {
        if first.len() == second.len() {
            first.push(chunk).expect(rt, NO_MEMORY);
        } else {
            second.push(chunk).expect(rt, NO_MEMORY);
        }
    }
    join(rt, move || sum_of(first), move || sum_of(second))
}

#[test]
fn two_threads_have_chunks_of_the_same_blocks(rt: HostRuntime) {
    for count in [2, 64, 130] {
        let sum = 3 * 1024 * (count as u64 / 2);
        assert!(rt; by_two(&rt, rt.alloc(), count) == (sum, sum));
    }
}
