//! Chunks for the words of frames, which share blocks of memory.
//!
//! An allocator writes beside each block that it gives, and so it touches a page of each frame that has a block of its own. Here up to 64 chunks of
//! 1,024 words lie in one block: a chunk that was never written touches no page. A block is freed when the last of its chunks goes, in whatever
//! thread that is.
//!
//! Contracts see a chunk as its words, which are none or 1,024. `chunks` takes the memory of all, and no call of a chunk takes any.
//!
//! The raw pointers are in `block`. A block is lent to its chunks for a lifetime, and each has a part of the token that says it is alive. The
//! first word of the block counts the chunks that are left: by it the last one is told, which ends the lifetime and frees the block.

ghost use Rattle.std.specs.Prelude.{◌≡◌, ◌⊎◌, ◌==◌, ◌<◌, ◌≤◌, ◌+◌, [], ◌++◌, length, replicate, IfOk, vec_len, vec_capacity};
ghost use Rattle.std.specs.Borrow.{sem};
ghost use Rattle.std.specs.Vec.{vec_ptr};
ghost use Rattle.pager_model.specs.ChunkLoans.{LendsChunk};

mod block;

use block::{Block, Key, emptied};
use std::alloc::{AllocError, Global};
use std::marker::Model;
use std::{fmt, mem};
use std_alloc::vec::Lodged;

/// How many words a chunk has, and so a frame and a page.
pub const WORDS: usize = 1024;

/// How many chunks share a block at most.
const CHUNKS: usize = 64;

/// A chunk: empty, or 1,024 words.
pub struct Chunk {
    words: Vec<u64, Lodged>,
    key: Key,
    alloc: Global,
}

impl Model for Chunk {
    ghost use Rattle.std.specs.Prelude.{List, ℕ};
    ghost use Rattle.pager_model.specs.Chunks.{IsChunk};

    ghost Value = { List ℕ };

    ghost view = { λ r. r.words.items };

    ghost invariant = { λ r. IsChunk r.words r.key };
}

/// So many chunks, each of them empty.
pub fn chunks(alloc: Global, count: usize) -> Result<Vec<Chunk>, AllocError>
    ensures { IfOk result (λ chunks. chunks.items ≡ replicate count []) }
{
    let mut chunks = Vec::with_capacity(alloc, count)?;
    while chunks.len() < count {
        let more = (count - chunks.len()).min(CHUNKS);
        let block = Block::allocate(alloc, more)?;
        append_chunks(&mut chunks, block, more, alloc);
    }
    Ok(chunks)
}

/// Appends the chunks of a block, which are so many.
fn append_chunks(chunks: &mut Vec<Chunk>, block: Block, count: usize, alloc: Global)
    requires count { (block.left ≡ count) × (count ≤ 64) }
    requires fits { vec_len chunks.old + count ≤ vec_capacity chunks.old }
    ensures chunks { chunks.new.items ≡ chunks.old.items ++ replicate count [] }
    ensures len { vec_len chunks.new ≡ vec_len chunks.old + count }
    ensures capacity { vec_capacity chunks.new ≡ vec_capacity chunks.old }
{
    let mut block = block;
    for _ in 0..count {
        let (words, key, rest) = block.next();
        block = rest;
        chunks.push_reserved(Chunk { words, key, alloc });
    }
    block.close();
}

impl Chunk {
    /// Whether it has no words.
    pub fn is_empty(&self) -> bool
        ensures { result ≡ (length self.now == 0) }
    {
        self.words.is_empty()
    }

    /// Its words.
    pub fn as_slice(&self) -> &[u64]
        ensures words { result.now ≡ self.now }
        ensures count { (result.now ≡ []) ⊎ (length result.now ≡ 1024) }
    {
        self.words.as_slice()
    }

    /// Its words, to be written.
    pub fn as_mut_slice(&mut self) -> &mut [u64]
        ensures* writes_back { sem 𝓛 (LendsChunk self.entry result) }
        ensures words { result.now ≡ self.old }
        ensures count { (result.now ≡ []) ⊎ (length result.now ≡ 1024) }
    {
        self.words.as_mut_slice()
    }

    /// Takes its words away.
    pub fn clear(&mut self)
        ensures { self.new ≡ [] }
    {
        let at = self.words.as_mut_ptr();
        let words = mem::replace(&mut self.words, Vec::new(Lodged));
        self.words = emptied(words, at);
    }

    /// Makes its words 1,024 zeros.
    pub fn fill_zeros(&mut self)
        ensures { self.new ≡ replicate 1024 0 }
    {
        self.clear();
        append_zeros(&mut self.words);
    }
}

impl Drop for Chunk {
    fn drop(self) {
        let Chunk { words, key, alloc } = self;
        key.leave(words, alloc);
    }
}

impl fmt::Debug for Chunk {
    fn fmt<W: fmt::Write>(&self, f: &mut fmt::Formatter<W>) -> fmt::Result {
        self.as_slice().fmt(f)
    }
}

/// Puts 1,024 zeros behind no words.
fn append_zeros(words: &mut Vec<u64, Lodged>)
    requires empty { words.old.items ≡ [] }
    requires chunk { vec_capacity words.old ≡ 1024 }
    ensures words { words.new.items ≡ replicate 1024 0 }
    ensures chunk { vec_capacity words.new ≡ 1024 }
    ensures place { vec_ptr words.new ≡ vec_ptr words.old }
{
    while words.len() < WORDS {
        words.push_reserved(0);
    }
}
