//! A place for each frame number, in which a frame may be kept.

ghost use Rattle.std.specs.Prelude.{◌≡◌, ◌≢◌, ◌<◌, ◌≤◌, ◌-◌, ◌++◌, None, Some, IfOk, length, replicate, slice_index_or, slice_set, vec_capacity};
ghost use Rattle.pager_model.specs.Frame.{Framed};
ghost use Rattle.store_core.specs.CopiedWords.{copied_words};

use crate::frames::{set_copied, set_word};
use pager_model::{Frame, NoMemory};
use std::alloc::Global;
use std::marker::Model;
use store_core::Copied;

/// So many places, each with a frame or empty.
#[derive(Drop)]
pub struct Places {
    /// The places up to the last one that ever had a frame; any other is empty, and its memory was never written. There is room for all of them
    /// from the start.
    items: Vec<Option<Frame>>,
    count: usize,
}

impl Model for Places {
    ghost use Rattle.std.specs.Prelude.{◌≤◌, ◌-◌, ◌++◌, List, Option, None, length, replicate, vec_capacity};
    ghost use Rattle.pager_model.specs.Frame.{Framed};

    ghost Value = { List (Option Framed) };

    ghost view = { λ p. p.items.items ++ replicate (p.count - length p.items.items) None };

    ghost invariant = { λ p. (length p.items.items ≤ p.count) × (p.count ≤ vec_capacity p.items) };
}

impl Places {
    /// So many empty places. Its memory is all that it ever takes.
    pub fn create(alloc: Global, count: u32) -> Result<Places, NoMemory>
        ensures { IfOk result (λ places. places ≡ replicate count None) }
    {
        let count = count as usize;
        Ok(Places {
            items: Vec::with_capacity(alloc, count)?,
            count,
        })
    }

    /// The frame in a place that isn't empty.
    pub fn frame(&self, number: u32) -> &Frame
        requires { slice_index_or self.now number None ≢ None }
        ensures { slice_index_or self.now number None ≡ Some result.now }
    {
        let Some(frame) = &self.items[number as usize] else {
            unreachable!()
        };
        frame
    }

    /// Puts a frame into the place of its number.
    pub fn put(&mut self, frame: Frame)
        requires { frame.number < length self.old }
        ensures { self.new ≡ slice_set self.old frame.number (Some frame) }
    {
        let number = frame.number() as usize;
        grow_to(&mut self.items, number + 1);
        self.items[number] = Some(frame);
    }

    /// Takes the frame out of a place, unless it is empty.
    pub fn take(&mut self, number: u32) -> Option<Frame>
        ensures frame { result ≡ slice_index_or self.old number None }
        ensures after { self.new ≡ slice_set self.old number None }
    {
        self.items.get_mut(number as usize)?.take()
    }

    /// Writes a word of the frame in a place.
    pub fn set_word(&mut self, number: u32, index: usize, word: u64)
        requires there { slice_index_or self.old number None ≢ None }
        requires index { index < 1024 }
        ensures count { (frame : Framed) → slice_index_or self.old number None ≡ Some frame → length frame.words ≡ 1024 }
        ensures written { (frame : Framed) → slice_index_or self.old number None ≡ Some frame → self.new ≡ slice_set self.old number (Some (record {
          number = frame.number;
          words = slice_set frame.words index word;
        })) }
    {
        let Some(frame) = &mut self.items[number as usize] else {
            unreachable!()
        };
        set_word(frame, index, word);
    }

    /// Makes the copy that a read told of the words of the frame in a place.
    pub fn set_copied(&mut self, number: u32, copied: Copied, words: &[u64])
        requires there { slice_index_or self.old number None ≢ None }
        requires words { length words.now ≡ 1024 }
        ensures { (frame : Framed) → slice_index_or self.old number None ≡ Some frame → self.new ≡ slice_set self.old number (Some (record {
          number = frame.number;
          words = copied_words copied words.now;
        })) }
    {
        let Some(frame) = &mut self.items[number as usize] else {
            unreachable!()
        };
        set_copied(frame, copied, words);
    }
}

/// Appends empty places until there are so many, within the room that there is.
fn grow_to(places: &mut Vec<Option<Frame>>, count: usize)
    requires { count ≤ vec_capacity places.old }
    ensures grown { places.new.items ≡ places.old.items ++ replicate (count - length places.old.items) None }
    ensures capacity { vec_capacity places.new ≡ vec_capacity places.old }
{
    for _ in 0..count.saturating_sub(places.len()) {
        places.push_reserved(None);
    }
}
