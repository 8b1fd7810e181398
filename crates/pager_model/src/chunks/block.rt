//! A block of memory that chunks share: 65,537 words, of which the first counts the chunks.
ghost use Rattle.std.specs.Prelude.{◌≡◌, ◌+◌, ◌<◌, ◌≤◌, [], IfOk};
ghost use Rattle.std.specs.Vec.{vec_ptr, vec_capacity};
ghost use Rattle.std.specs.Borrow.{sem, u64};
ghost use denote.RawPtr.{Ptr};
ghost use Rattle.std.specs.Allocator.{owned_block, array_of};
ghost use Rattle.pager_model.specs.ChunkOwnership.{block_owns, key_owns, may_free};

use std::alloc::{AllocError, Global};
use std::marker::{Brand, Model};
use std::sync::atomic::{Ordering, raw};
use std_alloc::room::Vacant;
use std_alloc::vec::{Lodged, lodge};

/// A block, and how many of its chunks are still to be handed out.
pub struct Block {
    start: *mut u64,
    pub left: usize,
}

impl Model for Block {
    ghost also_owns = { λ b. block_owns b.start b.left };
}

/// What a chunk of the block gives back.
pub struct Key {
    start: *mut u64,
    pub ghost at: { Ptr },
}

impl Model for Key {
    ghost also_owns = { λ k. key_owns k.start k.at };
}

// What a key owns is its own part of a token, and its own words.
unsafe impl Send for Key {}

unsafe impl Sync for Key {}

impl Block {
    /// A new block, to be shared by so many chunks.
    pub fn allocate(alloc: Global, chunks: usize) -> Result<Block, AllocError>
        requires chunks { (0 < chunks) × (chunks ≤ 64) }
        ensures { IfOk result (λ block. block.left ≡ chunks) }
    {
        match Vacant::take(alloc) {
            Ok(memory) => Ok(Block::over(memory, chunks)),
            Err(_) => Err(AllocError),
        }
    }

    /// The block in this memory, none of whose chunks was handed out.
    fn over(memory: Vacant<[u64; 65537], Global>, chunks: usize) -> Block
        requires chunks { (0 < chunks) × (chunks ≤ 64) }
        ensures { result.left ≡ chunks }
    {
        let Vacant { ptr, alloc: _ } = memory;
        let start = ptr as *mut u64;
        unsafe {
            *start = chunks as u64;
        }
        Block {
            start,
            left: chunks,
        }
    }

    /// The words of the next chunk, and the key to give them back by.
    pub fn next(self) -> (Vec<u64, Lodged>, Key, Block)
        requires { (0 < self.left) × (self.left ≤ 64) }
        ensures words { result.0.items ≡ [] }
        ensures chunk { vec_capacity result.0 ≡ 1024 }
        ensures place { vec_ptr result.0 ≡ result.1.at }
        ensures left { result.2.left + 1 ≡ self.left }
    {
        let Block { start, left } = self;
        let left = left - 1;
        unsafe {
            let at = start.add(1 + left * 1024);
            let words = lodge(at, 0, 1024);
            (words, Key { start }, Block { start, left })
        }
    }
}

impl Block {
    /// Ends a block whose chunks were all handed out.
    pub fn close(self)
        requires { self.left ≡ 0 }
    {
        let Block { start: _, left: _ } = self;
    }
}

impl Key {
    /// Gives a chunk back. The last to do so frees the block.
    pub fn leave(self, words: Vec<u64, Lodged>, alloc: Global)
        requires chunk { vec_capacity words ≡ 1024 }
        requires place { vec_ptr words ≡ self.at }
    {
        let Key { start } = self;
        words.dislodge();
        let before = unsafe { raw::fetch_sub::<Brand>(start, 1, Ordering::SeqCst) };
        if before == 1 {
            unsafe {
                free(start, alloc);
            }
        }
    }
}

/// The same chunk, with no words in it. `at` is where it lies.
pub fn emptied(words: Vec<u64, Lodged>, at: *mut u64) -> Vec<u64, Lodged>
    requires chunk { vec_capacity words ≡ 1024 }
    requires place { vec_ptr words ≡ at }
    ensures words { result.items ≡ [] }
    ensures chunk { vec_capacity result ≡ 1024 }
    ensures place { vec_ptr result ≡ at }
{
    words.dislodge();
    unsafe { lodge(at, 0, 1024) }
}

/// Frees a block, to which all words went back.
unsafe fn free(start: *mut u64, alloc: Global)
    requires* { sem 𝓛 (owned_block may_free (array_of u64 65537) start) }
{
    let memory = Vacant {
        ptr: start as *mut [u64; 65537],
        alloc,
    };
    memory.free();
}
