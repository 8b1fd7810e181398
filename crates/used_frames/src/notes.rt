//! The notes of all frames, counted.

ghost use Rattle.std.specs.Prelude.{◌≡◌, ◌+◌, ◌^◌, ◌<◌, ◌≤◌, length, replicate, slice_index_or, slice_set, count_by, is_some, Some, None, false, IfOk, IfSome, IfNone};
ghost use Rattle.std.specs.List.{list_any};
ghost use Rattle.std.specs.Int.{from_bool};
ghost use Rattle.pager_model.specs.FrameStates.{is_evictable, is_wired_place, is_claimed_place, with_claim, with_wired};
ghost use Rattle.pager_model.specs.Bounds.{most_frames};
ghost use Rattle.used_frames.specs.Kept.{evictable_age};
ghost use Rattle.used_frames.specs.Victims.{IsLeast};

use crate::note::Note;
use least_ages::LeastAges;
use pager_model::{NoMemory, Used};
use std::alloc::Global;
use std::marker::Model;

/// For each frame what is noted of it, where it is used; how many frames are used, wired and claimed; and which of those that are neither is
/// the oldest.
///
/// Contracts see the list by frame of what is noted.
#[derive(Drop)]
pub(crate) struct Notes {
    places: Vec<Note>,
    used: u32,
    wired: u32,
    claimed: u32,
    /// The used frames that are neither wired nor claimed.
    ages: LeastAges,
}

impl Model for Notes {
    ghost use Rattle.std.specs.Prelude.{List, Option};
    ghost use Rattle.pager_model.specs.declared.reservation.Used.{Used};
    ghost use Rattle.used_frames.specs.Kept.{AreCounted, AreAged};

    ghost Value = { List (Option Used) };

    ghost view = { λ n. n.places.items };

    ghost invariant = { λ n. AreCounted n.places.items n.used n.wired n.claimed × AreAged n.places.items n.ages };
}

/// Whether the note is of a page in a wired region.
fn is_wired(note: Option<Used>) -> bool
    ensures { result ≡ is_wired_place note }
{
    match note {
        Some(used) => used.wired,
        None => false,
    }
}

/// Whether the note is of a frame that a processor claims.
fn is_claimed(note: Option<Used>) -> bool
    ensures { result ≡ is_claimed_place note }
{
    match note {
        Some(used) => used.claim.is_some(),
        None => false,
    }
}

/// The age of a frame that is neither wired nor claimed.
fn evictable_age(note: Option<Used>) -> Option<u64>
    ensures { result ≡ evictable_age note }
{
    match note {
        Some(used) if !used.wired && used.claim.is_none() => Some(used.age),
        _ => None,
    }
}

/// The count after a change of one frame, by whether it was counted before and is after.
fn recount(count: u32, before: bool, after: bool) -> u32
    requires counted { from_bool before ≤ count }
    requires fits { count + from_bool after < 2 ^ 32 + from_bool before }
    ensures { result + from_bool before ≡ count + from_bool after }
{
    count - u32::from(before) + u32::from(after)
}

impl Notes {
    /// No frame is used.
    pub(crate) fn create(alloc: Global, frames: u32) -> Result<Notes, NoMemory>
        requires { frames ≤ most_frames }
        ensures { IfOk result (λ notes. notes ≡ replicate frames None) }
    {
        Ok(Notes {
            places: vec![in alloc; Note::NONE; frames as usize]?,
            used: 0,
            wired: 0,
            claimed: 0,
            ages: LeastAges::create(alloc, frames)?,
        })
    }

    /// What is noted of the frame.
    pub(crate) fn get(&self, frame: u32) -> Option<Used>
        ensures { result ≡ slice_index_or self.now frame None }
    {
        self.places.get(frame as usize)?.get()
    }

    /// This is noted of the frame from now on.
    pub(crate) fn set(&mut self, frame: u32, note: Option<Used>)
        requires { frame < length self.old }
        ensures { self.new ≡ slice_set self.old frame note }
    {
        let before = self.get(frame);
        self.used = recount(self.used, before.is_some(), note.is_some());
        self.wired = recount(self.wired, is_wired(before), is_wired(note));
        self.claimed = recount(self.claimed, is_claimed(before), is_claimed(note));
        self.places[frame as usize] = Note::of(note);
        self.ages.set(frame, evictable_age(note));
    }

    /// The used frame is claimed by this processor, or by none.
    pub(crate) fn set_claim(&mut self, frame: u32, claim: Option<u32>)
        requires { frame < length self.old }
        ensures { self.new ≡ slice_set self.old frame (with_claim claim (slice_index_or self.old frame None)) }
    {
        let note = self.get(frame);
        self.set(frame, note.map(|used| Used { claim, ..used }));
    }

    /// The used frame is wired, or is no longer.
    pub(crate) fn set_wired(&mut self, frame: u32, wired: bool)
        requires { frame < length self.old }
        ensures { self.new ≡ slice_set self.old frame (with_wired wired (slice_index_or self.old frame None)) }
    {
        let note = self.get(frame);
        self.set(frame, note.map(|used| Used { wired, ..used }));
    }

    /// Of the used frames that are neither wired nor claimed the one of least age.
    pub(crate) fn victim(&self) -> Option<u32>
        ensures found { IfSome result (IsLeast self.now) }
        ensures none { IfNone result (list_any is_evictable self.now ≡ false) }
    {
        self.ages.first()
    }

    /// How many frames are used.
    pub(crate) fn used(&self) -> u32
        ensures { result ≡ count_by is_some self.now }
    {
        self.used
    }

    /// How many used frames are of a page in a wired region.
    pub(crate) fn wired(&self) -> u32
        ensures { result ≡ count_by is_wired_place self.now }
    {
        self.wired
    }

    /// How many used frames a processor claims.
    pub(crate) fn claimed(&self) -> u32
        ensures { result ≡ count_by is_claimed_place self.now }
    {
        self.claimed
    }
}
