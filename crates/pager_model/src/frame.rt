ghost use Rattle.std.specs.Prelude.{◌≡◌, length, replicate, map, IfOk};
ghost use Rattle.std.specs.List.{range_with_len};
ghost use Rattle.std.specs.Borrow.{sem};
ghost use Rattle.pager_model.specs.Frame.{zero_frame};
ghost use Rattle.pager_model.specs.FrameLoan.{LendsWords};

pub use crate::chunks::WORDS;
use crate::chunks::{Chunk, chunks};
use std::alloc::{AllocError, AllocFailed, Global};
use std::marker::Model;

/// No memory could be had.
#[derive(Clone, Copy, Debug, PartialEq, Eq)]
pub struct NoMemory;

impl From<AllocError> for NoMemory {
    fn from(_: AllocError) -> NoMemory {
        NoMemory
    }
}

impl<T: Drop> From<AllocFailed<T>> for NoMemory {
    fn from(_: AllocFailed<T>) -> NoMemory {
        NoMemory
    }
}

/// The words of a frame that nothing was written to.
static ZEROS: [u64; WORDS] = [0; WORDS];

/// A frame of memory: a number and 1,024 words of 64 bits. It moves, and nothing copies it.
#[derive(Drop)]
pub struct Frame {
    number: u32,
    /// Its words, or none of them while each is zero. Its memory is there from the start, and a frame that is never written touches none of it.
    chunk: Chunk,
}

impl Model for Frame {
    ghost use Rattle.pager_model.specs.Frame.{Framed, words_or_zeros};

    ghost Value = { Framed };

    ghost view = { λ f. record { number = f.number; words = words_or_zeros f.chunk } };
}

impl Frame {
    /// Its number.
    pub fn number(&self) -> u32
        ensures { result ≡ self.now.number }
    {
        self.number
    }

    /// Its words.
    pub fn words(&self) -> &[u64]
        ensures words { result.now ≡ self.now.words }
        ensures count { length result.now ≡ 1024 }
    {
        if self.chunk.is_empty() {
            return zeros();
        }
        self.chunk.as_slice()
    }

    /// Its words, to be written.
    pub fn words_mut(&mut self) -> &mut [u64]
        ensures* writes_back { sem 𝓛 (LendsWords self.entry result) }
        ensures words { result.now ≡ self.old.words }
        ensures count { length result.now ≡ 1024 }
    {
        if self.chunk.is_empty() {
            self.chunk.fill_zeros();
        }
        self.chunk.as_mut_slice()
    }

    /// Makes its words zero, which writes none of them.
    pub fn clear(&mut self)
        ensures { self.new ≡ zero_frame self.old.number }
    {
        self.chunk.clear();
    }
}

/// Zero words, which are not written.
fn zeros() -> &'static [u64]
    ensures { result.now ≡ replicate 1024 0 }
{
    &ZEROS
}

/// Frames 0 to `count - 1`, with zero words.
pub fn frames_of(alloc: Global, count: u32) -> Result<Vec<Frame>, NoMemory>
    ensures { IfOk result (λ frames. frames.items ≡ map zero_frame (range_with_len 0 count)) }
{
    let mut chunks = chunks(alloc, count as usize)?;
    let mut frames = Vec::with_capacity(alloc, count as usize)?;
    for number in 0..count {
        let Some(chunk) = chunks.pop() else {
            unreachable!()
        };
        frames.push_reserved(Frame { number, chunk });
    }
    Ok(frames)
}
