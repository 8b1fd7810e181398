//! What is noted of the used frames: how old the use of each is, whether its page's region is wired, and which processor claims it.
//!
//! The victim is the frame used longest of those that are neither wired nor claimed: first in, first out, whatever was accessed since.
//! The frames that are neither are leaves of a tree by age, whose root is the victim, so that a frame comes into its place at any age in a few
//! steps; and the counts are kept as they change: no call looks through all frames.
#![tactic(auto)]

ghost use Rattle.std.specs.Prelude.{◌≡◌, ℕ, ◌<◌, ◌≤◌, Some, None, IfOk, IfSome, IfNone, is_some, length, replicate, count_by, true, false};
ghost use Rattle.std.specs.List.{list_any};
ghost use Rattle.pager_model.specs.FrameStates.{claim_in, is_evictable, is_wired_place, is_claimed_place};
ghost use Rattle.used_frames.specs.Noted.{note_of, with_note, with_claim_of, with_wired_of, Claims};
ghost use Rattle.pager_model.specs.Bounds.{most_frames};
ghost use Rattle.used_frames.specs.Victims.{IsLeast};

mod note;
mod notes;

use notes::Notes;
use pager_model::{NoMemory, Used};
use std::alloc::Global;
use std::marker::Model;

/// What is noted of the used frames, with all the memory that it ever needs.
///
/// Contracts see the list by frame of what is noted, and the number of processors.
#[derive(Drop)]
pub struct UsedFrames {
    notes: Notes,
    /// For each processor the frame that it claims.
    claims: Vec<Option<u32>>,
}

impl Model for UsedFrames {
    ghost use Rattle.std.specs.Prelude.{length, map};
    ghost use Rattle.pager_model.specs.FrameStates.{claim_in};
    ghost use Rattle.used_frames.specs.Kept.{AreMutual};
    ghost use Rattle.used_frames.specs.Noted.{Noted};

    ghost Value = { Noted };

    ghost view = { λ u. record { frames = u.notes; processors = length u.claims.items } };

    ghost invariant = { λ u. AreMutual (map claim_in u.notes) u.claims.items };
}

impl UsedFrames {
    /// No frame is used.
    pub fn create(alloc: Global, frames: u32, processors: u32) -> Result<UsedFrames, NoMemory>
        requires { frames ≤ most_frames }
        ensures { IfOk result (λ used. used ≡ record { frames = replicate frames None; processors = processors }) }
    {
        Ok(UsedFrames {
            notes: Notes::create(alloc, frames)?,
            claims: vec![in alloc; None; processors as usize]?,
        })
    }

    /// The frame is used from now on, at this age.
    pub fn add(&mut self, frame: u32, age: u64, wired: bool)
        requires known { frame < length self.old.frames }
        requires unused { note_of self.old frame ≡ None }
        ensures { self.new ≡ with_note self.old frame (Some (record { age = age; wired = wired; claim = None })) }
    {
        let note = Used {
            age,
            wired,
            claim: None,
        };
        self.notes.set(frame, Some(note));
    }

    /// The frame is used no more. Answers the processor that claimed it, where one did.
    pub fn remove(&mut self, frame: u32) -> Option<u32>
        requires { is_some (note_of self.old frame) ≡ true }
        ensures claimer { result ≡ claim_in (note_of self.old frame) }
        ensures removed { self.new ≡ with_note self.old frame None }
    {
        let used = self.notes.get(frame).unwrap();
        self.notes.set(frame, None);
        if let Some(processor) = used.claim {
            self.claims[processor as usize] = None;
        }
        used.claim
    }

    /// The used frame is wired, or is no longer.
    pub fn wire(&mut self, frame: u32, wired: bool)
        requires { is_some (note_of self.old frame) ≡ true }
        ensures { self.new ≡ with_wired_of self.old frame wired }
    {
        self.notes.set_wired(frame, wired);
    }

    /// The processor, which claims no frame, claims this one, which nobody claims.
    pub fn claim(&mut self, frame: u32, processor: u32)
        requires used { is_some (note_of self.old frame) ≡ true }
        requires unclaimed { claim_in (note_of self.old frame) ≡ None }
        requires known { processor < self.old.processors }
        requires nothing { (other : ℕ) → Claims self.old processor other → ⊥ }
        ensures { self.new ≡ with_claim_of self.old frame (Some processor) }
    {
        self.notes.set_claim(frame, Some(processor));
        self.claims[processor as usize] = Some(frame);
    }

    /// The frame that the processor claims is claimed no more. Answers it.
    pub fn unclaim(&mut self, processor: u32) -> u32
        requires { (frame : ℕ) × Claims self.old processor frame }
        ensures frame { Claims self.old processor result }
        ensures unclaimed { self.new ≡ with_claim_of self.old result None }
    {
        let frame = self.claimed_by(processor).unwrap();
        self.notes.set_claim(frame, None);
        self.claims[processor as usize] = None;
        frame
    }

    /// Whether a processor claims the frame.
    pub fn is_claimed(&self, frame: u32) -> bool
        ensures { result ≡ is_some (claim_in (note_of self.now frame)) }
    {
        match self.notes.get(frame) {
            Some(used) => used.claim.is_some(),
            None => false,
        }
    }

    /// The frame that the processor claims, where it claims one.
    pub fn claimed_by(&self, processor: u32) -> Option<u32>
        ensures found { IfSome result (Claims self.now processor) }
        ensures none { IfNone result ((frame : ℕ) → Claims self.now processor frame → ⊥) }
    {
        self.claims.get(processor as usize).copied().flatten()
    }

    /// The frame whose page is paged out next: of those that are neither wired nor claimed the one of least age.
    pub fn victim(&self) -> Option<u32>
        ensures found { IfSome result (IsLeast self.now.frames) }
        ensures none { IfNone result (list_any is_evictable self.now.frames ≡ false) }
    {
        self.notes.victim()
    }

    /// How many frames are used.
    pub fn count(&self) -> u32
        ensures { result ≡ count_by is_some self.now.frames }
    {
        self.notes.used()
    }

    /// How many used frames are of a page in a wired region.
    pub fn wired(&self) -> u32
        ensures { result ≡ count_by is_wired_place self.now.frames }
    {
        self.notes.wired()
    }

    /// How many used frames a processor claims.
    pub fn claimed(&self) -> u32
        ensures { result ≡ count_by is_claimed_place self.now.frames }
    {
        self.notes.claimed()
    }
}
