//! A slot in memory.

ghost use Rattle.std.specs.Prelude.{◌≡◌, length, replicate, IfOk, IfSome, Some, None};
ghost use Rattle.pager_model.specs.Stored.{zero_words};

use pager_model::{Frame, NoMemory, frames_of};
use std::alloc::Global;
use std::marker::Model;

/// The words of a slot, where they are known.
///
/// Contracts see it as the words, or nothing where they are unknown.
#[derive(Drop)]
pub(super) struct Slot {
    frame: Frame,
    is_known: bool,
}

impl Model for Slot {
    ghost use Rattle.std.specs.Prelude.{ℕ, List, Option, Some, None, if◌then◌else◌};

    ghost Value = { Option (List ℕ) };

    ghost view = { λ s. if s.is_known then Some s.frame.words else None };
}

impl Slot {
    /// Reads its words.
    pub(super) fn read(&self, words: &mut [u64])
        requires { length words.old ≡ 1024 }
        ensures { IfSome self.now (λ known. words.new ≡ known) }
    {
        let kept = self.frame.words();
        words.copy_from_slice(kept);
    }

    /// Makes these its words.
    pub(super) fn write(&mut self, words: &[u64])
        requires { length words.now ≡ 1024 }
        ensures { self.new ≡ Some words.now }
    {
        self.frame.words_mut().copy_from_slice(words);
        self.is_known = true;
    }

    /// Makes its words unknown.
    pub(super) fn lose(&mut self)
        ensures { self.new ≡ None }
    {
        self.is_known = false;
    }
}

/// This many slots with zero words. They share blocks of memory, of which those that are never written touch little.
pub(super) fn blank_slots(alloc: Global, count: u32) -> Result<Vec<Slot>, NoMemory>
    ensures { IfOk result (λ slots. slots.items ≡ replicate count (Some zero_words)) }
{
    let mut frames = frames_of(alloc, count)?;
    let mut slots = Vec::with_capacity(alloc, count as usize)?;
    for _ in 0..count {
        let Some(frame) = frames.pop() else {
            unreachable!()
        };
        slots.push_reserved(Slot {
            frame,
            is_known: true,
        });
    }
    Ok(slots)
}
