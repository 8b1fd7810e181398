ghost use Rattle.std.specs.Prelude.{◌≡◌, ℕ, ◌+◌, ◌%◌, ◌^◌, ◌<◌, ◌≤◌, ◌⊎◌, ◌↔◌, ◌==◌, ◌&&◌, if◌then◌else◌, false, true, Some, None, IsTrue, IfOk, IfErr, IsErr, IfSome, IfNone, IsSome, is_some, length, map, count_by};
ghost use Rattle.std.specs.List.{range_with_len};
ghost use Rattle.pager_model.specs.Frame.{zero_frame};
ghost use Rattle.pager_model.specs.FrameStates.{FrameState, Taking, start_frames, layout_of, used_at, held_by, frame_of, claim_in, HasNothing};
ghost use Rattle.pager_model.specs.FrameStates.{take_frame, counted, give_page, claimed, pin_range, lowest_claimed, dropped, IsFull, IsVictim, has_evictable, is_short};
ghost use Rattle.pager_model.specs.FrameStates.{free_count, used_count, reserved_count, wired_count, claimed_count, held_count};
ghost use Rattle.pager_model.specs.Layouts.{preferred_in};
ghost use Rattle.pager_model.specs.PreferredSize.{IsWanted};
ghost use Rattle.pager_model.specs.Bounds.{most_frames, space_pages, most_spaces, most_actors};

use crate::layout::Layout;
use crate::pins::{Kept, lowest_claimed, wire_range};
use crate::records::page_at;
use pager_model::{Frame, NoMemory, Size, Sizes, Victim, Want, frames_of};
use std::alloc::Global;
use std::marker::Model;
use used_frames::UsedFrames;

/// No frame can be had.
#[derive(Clone, Copy, Debug, PartialEq, Eq)]
pub struct Full;

/// Every used frame is wired or claimed: how many are wired and claimed, and how many frames are held by a processor.
#[derive(Clone, Copy, Debug, PartialEq, Eq)]
pub struct NoneLeft {
    pub wired: u32,
    pub claimed: u32,
    pub held: u32,
}

/// What became of the frame that a processor claimed.
#[derive(Clone, Copy, Debug, PartialEq, Eq)]
pub enum Collected {
    /// It is still its page's.
    Claimed,
    /// Its page gave it up, and the processor holds it.
    Held,
}

/// How many frames are free, unused places of reservations, used places and held by a processor; and how many of the used
/// ones are wired and claimed.
#[derive(Clone, Copy, Debug, PartialEq, Eq)]
pub struct Counts {
    pub free: u32,
    pub reserved: u32,
    pub used: u32,
    pub wired: u32,
    pub claimed: u32,
    pub held: u32,
}

/// Owns every frame that no page has. Contracts see it as the state of the frames.
#[derive(Drop)]
pub struct Pool {
    // for each frame the frame itself, where no page has it
    frames: Vec<Option<Frame>>,
    layout: Layout,
    used: UsedFrames,
    // for each processor the frame that it holds
    held: Vec<Option<u32>>,
    entries: u64,
    preemptions: u64,
}

impl Model for Pool {
    ghost use Rattle.pager_model.specs.FrameStates.{FrameState};

    ghost Value = { FrameState };

    ghost use Rattle.frame_pool.specs.PoolState.{state_of};
    ghost use Rattle.frame_pool.specs.Pooled.{IsPool};

    ghost view = { state_of };

    ghost invariant = { λ p. IsPool p.frames.items p.layout p.used.processors (state_of p) };
}

impl Pool {
    /// All frames are free, and there are these page sizes. All the memory that the pool ever takes is taken here. `frames` is a multiple
    /// of 512, and `processors` counts a daemon.
    pub fn create(
        alloc: Global,
        frames: u32,
        processors: u32,
        sizes: Sizes,
    ) -> Result<Pool, NoMemory>
        requires whole { frames % 512 ≡ 0 }
        requires frames { frames ≤ most_frames }
        requires processors { processors ≤ most_actors }
        ensures { IfOk result (λ pool. pool ≡ start_frames sizes frames processors) }
    {
        // What has most to drop is made last, so that no way out drops it.
        Ok(Pool {
            held: vec![in alloc; None; processors as usize]?,
            frames: every_frame(alloc, frames)?,
            used: UsedFrames::create(alloc, frames, processors)?,
            layout: Layout::create(alloc, frames, sizes)?,
            entries: 0,
            preemptions: 0,
        })
    }

    /// The frame of the page's place, where it has one.
    pub fn frame_of(&self, space: u32, page: u32) -> Option<u32>
        requires few { space < most_spaces }
        requires page { page < space_pages }
        ensures { result ≡ frame_of self.now space page }
    {
        self.layout.frame_of(space, page)
    }

    /// The frame that the processor claims, where it claims one.
    pub fn claimed_by(&self, processor: u32) -> Option<u32>
        ensures found { IfSome result (λ frame. claim_in (used_at self.now frame) ≡ Some processor) }
        ensures none { IfNone result ((frame : ℕ) → claim_in (used_at self.now frame) ≡ Some processor → ⊥) }
    {
        self.used.claimed_by(processor)
    }

    /// The frame that the processor holds, where it holds one.
    pub fn held_by(&self, processor: u32) -> Option<u32>
        ensures { result ≡ held_by self.now processor }
    {
        self.held.get(processor as usize).copied().flatten()
    }

    /// How many processors there are.
    pub fn processors(&self) -> usize
        ensures { result ≡ length self.now.held }
    {
        self.held.len()
    }

    /// Whether one more entry can be counted.
    pub fn has_room(&self) -> bool
        ensures { IsTrue result ↔ (self.now.entries < 2 ^ 45) }
    {
        self.entries < 1 << 45
    }

    /// The size that a new reservation round the page is tried with first, before frames are looked at: the largest of the pool's sizes whose
    /// extent round the page lies within the want, has at most the cap's number of pages, and meets no reservation of the space. Where there is
    /// none, and where a reservation has the page, it is one page.
    pub fn preferred(&self, space: u32, page: u32, want: &Want) -> Size
        requires few { space < most_spaces }
        requires wanted { IsWanted want.now page }
        ensures { result ≡ preferred_in (layout_of self.now) space page want.now }
    {
        self.layout.preferred(space, page, want)
    }

    /// Takes a frame for a page of a space, which has none. `Full` exactly where no frame is free and every reservation is full,
    /// and then nothing changes.
    pub fn take(&mut self, space: u32, page: u32, want: &Want) -> Result<Frame, Full>
        requires room { self.old.entries < 2 ^ 45 }
        requires few { space < most_spaces }
        requires unplaced { frame_of self.old space page ≡ None }
        requires wanted { IsWanted want.now page }
        ensures taken { IfOk result
            (λ frame. (t : Taking) × (take_frame self.old space page want.now ≡ Some t) × (self.new ≡ counted t.state) × (frame.number ≡ t.frame)) }
        // The frame is one of those that no page had.
        ensures unused { IfOk result (λ frame. (frame.number < length self.old.free) × (is_some (used_at self.old frame.number) ≡ false)) }
        ensures full { IfErr result (λ _. IsFull self.old × (self.new ≡ self.old)) }
        ensures full_is_told { IsFull self.old → IsErr result }
    {
        // The counts tell a full pool at once, before it is tried size by size. A pool that isn't full has a place for every page.
        if self.is_full() {
            return Err(Full);
        }
        let Some(place) = self.layout.reserve(self.entries, space, page, want) else {
            unreachable!()
        };
        let Some(frame) = self.frames[place.frame as usize].take() else {
            unreachable!()
        };
        self.used.add(place.frame, self.entries, want.wired);
        self.preemptions += place.broken;
        self.entries += 1;
        Ok(frame)
    }

    /// Claims the victim for the processor, which has no claim and holds nothing: of the used frames that are neither wired nor
    /// claimed the one of least age. `NoneLeft` exactly where there is none, and then nothing changes.
    pub fn claim(&mut self, processor: u32) -> Result<Victim, NoneLeft>
        requires room { self.old.entries < 2 ^ 45 }
        requires known { processor < length self.old.held }
        requires nothing { HasNothing self.old processor }
        ensures claimed { IfOk result (λ v. IsVictim self.old v.space v.page v.frame
            × (self.new ≡ counted (claimed self.old v.frame (Some processor)))) }
        ensures none_left { IfErr result (λ none. (has_evictable self.old ≡ false) × (self.new ≡ self.old)
            × (none ≡ record { wired = wired_count self.old; claimed = claimed_count self.old; held = held_count self.old })) }
    {
        let Some(frame) = self.used.victim() else {
            return Err(NoneLeft {
                wired: self.used.wired(),
                claimed: self.used.claimed(),
                held: held_frames(self.held.as_slice()),
            });
        };
        let reservation = self.layout.reservation_of(frame).unwrap();
        self.used.claim(frame, processor);
        self.entries += 1;
        Ok(Victim {
            space: reservation.space,
            page: page_at(&reservation, frame),
            frame,
        })
    }

    /// Whether there is a victim: a used frame that is neither wired nor claimed.
    pub fn has_victim(&self) -> bool
        ensures { result ≡ has_evictable self.now }
    {
        self.used.victim().is_some()
    }

    /// Whether free frames and unused places together are fewer than a low mark.
    pub fn is_short(&self, mark: u32) -> bool
        ensures { result ≡ is_short self.now mark }
    {
        let counts = self.counts();
        u64::from(counts.free) + u64::from(counts.reserved) < u64::from(mark)
    }

    /// Takes the frame of a page back, which is the page's used place. Answers the processor that claimed it and holds it now, and
    /// `None` exactly where it wasn't claimed. No entry is counted: one entry may take many frames back.
    pub fn give(&mut self, space: u32, page: u32, frame: Frame) -> Option<u32>
        requires { frame_of self.old space page ≡ Some frame.number }
        ensures claimer { result ≡ claim_in (used_at self.old frame.number) }
        ensures given { self.new ≡ give_page self.old space page }
        ensures places { (s p : ℕ) → frame_of self.new s p ≡ (if (space == s) && (p == page) then None else frame_of self.old s p) }
    {
        let number = frame.number();
        let claim = self.used.remove(number);
        self.frames[number as usize] = Some(frame);
        match claim {
            None => self.layout.vacate(number),
            Some(processor) => {
                self.layout.carve(number);
                self.held[processor as usize] = Some(number);
            }
        }
        claim
    }

    /// What became of the frame that the processor claimed.
    pub fn collect(&self, processor: u32) -> Collected
        requires { IsSome (held_by self.now processor) ⊎ ((frame : ℕ) × (claim_in (used_at self.now frame) ≡ Some processor)) }
        ensures held { result ≡ Collected.Held → IsSome (held_by self.now processor) }
        ensures claimed { result ≡ Collected.Claimed → (frame : ℕ) × (claim_in (used_at self.now frame) ≡ Some processor) }
    {
        match self.held_by(processor) {
            Some(_) => Collected::Held,
            None => Collected::Claimed,
        }
    }

    /// The frame that the processor holds becomes free, and a frame is taken for a page of a space, which has none: this one or
    /// another.
    pub fn use_held(&mut self, processor: u32, space: u32, page: u32, want: &Want) -> Frame
        requires room { self.old.entries < 2 ^ 45 }
        requires holds { IsSome (held_by self.old processor) }
        requires few { space < most_spaces }
        requires unplaced { frame_of self.old space page ≡ None }
        requires wanted { IsWanted want.now page }
        ensures { (t : Taking) × (take_frame (dropped self.old processor) space page want.now ≡ Some t) × (self.new ≡ counted t.state) × (result.number ≡ t.frame) }
    {
        self.put_back(processor);
        self.take(space, page, want).unwrap()
    }

    /// The frame that the processor holds becomes free. Answers its number.
    pub fn drop_held(&mut self, processor: u32) -> u32
        requires room { self.old.entries < 2 ^ 45 }
        requires holds { IsSome (held_by self.old processor) }
        ensures frame { held_by self.old processor ≡ Some result }
        ensures dropped { self.new ≡ counted (dropped self.old processor) }
    {
        let frame = self.put_back(processor);
        self.entries += 1;
        frame
    }

    /// The frame that the processor claims is claimed no more. Answers its number.
    pub fn unclaim(&mut self, processor: u32) -> u32
        requires room { self.old.entries < 2 ^ 45 }
        requires claims { (frame : ℕ) × (claim_in (used_at self.old frame) ≡ Some processor) }
        ensures frame { claim_in (used_at self.old result) ≡ Some processor }
        ensures unclaimed { self.new ≡ counted (claimed self.old result None) }
    {
        let frame = self.used.unclaim(processor);
        self.entries += 1;
        frame
    }

    /// The used places of a range of pages of a space are wired, or are no longer. Where they are to be wired and one of them is claimed, no
    /// place changes, and the lowest such page is answered with its frame. One entry is counted either way.
    pub fn pin(&mut self, space: u32, first: u32, length: u32, wired: bool) -> Option<Kept>
        requires room { self.old.entries < 2 ^ 45 }
        requires few { space < most_spaces }
        requires within { first + length ≤ space_pages }
        ensures kept { IfSome result (λ k. (wired ≡ true) × (lowest_claimed self.old space first length ≡ Some k.page)
            × (frame_of self.old space k.page ≡ Some k.frame) × (self.new ≡ counted self.old)) }
        ensures pinned { IfNone result ((wired ≡ true → lowest_claimed self.old space first length ≡ None)
            × (self.new ≡ counted (pin_range self.old space first length wired))) }
    {
        if wired {
            let kept = lowest_claimed(&self.layout, &self.used, space, first, length);
            if kept.is_some() {
                self.entries += 1;
                return kept;
            }
        }
        wire_range(&self.layout, &mut self.used, space, first, length, wired);
        self.entries += 1;
        None
    }

    /// How many frames are in each role.
    pub fn counts(&self) -> Counts
        ensures all { result.free + result.reserved + result.used + result.held ≡ length self.now.free }
        ensures free { result.free ≡ free_count self.now }
        ensures reserved { result.reserved ≡ reserved_count self.now }
        ensures used { result.used ≡ used_count self.now }
        ensures wired { result.wired ≡ wired_count self.now }
        ensures claimed { result.claimed ≡ claimed_count self.now }
        ensures held { result.held ≡ held_count self.now }
    {
        let free = self.layout.free_frames();
        let used = self.used.count();
        let held = held_frames(self.held.as_slice());
        Counts {
            free,
            reserved: self.frames.len() as u32 - free - used - held,
            used,
            wired: self.used.wired(),
            claimed: self.used.claimed(),
            held,
        }
    }

    /// How many takings broke a reservation.
    pub fn preempted(&self) -> u64
        ensures { result ≡ self.now.preemptions }
    {
        self.preemptions
    }

    /// Counts an entry on the frames that changes nothing else of them.
    pub fn end_entry(&mut self)
        requires { self.old.entries < 2 ^ 45 }
        ensures { self.new ≡ counted self.old }
    {
        self.entries += 1;
    }

    /// Whether every frame is a used place or held by a processor: exactly then none is free, and none is a reservation's unused place.
    fn is_full(&self) -> bool
        ensures { IsTrue result ↔ IsFull self.now }
    {
        self.layout.free_frames() == 0
            && self.used.count() + held_frames(self.held.as_slice()) == self.frames.len() as u32
    }

    /// The frame that the processor holds becomes free, and no entry is counted.
    fn put_back(&mut self, processor: u32) -> u32
        requires { IsSome (held_by self.old processor) }
        ensures frame { held_by self.old processor ≡ Some result }
        ensures dropped { self.new ≡ dropped self.old processor }
    {
        let frame = self.held[processor as usize].take().unwrap();
        self.layout.put_back(frame);
        frame
    }
}

/// For each frame the frame itself.
fn every_frame(alloc: Global, count: u32) -> Result<Vec<Option<Frame>>, NoMemory>
    ensures { IfOk result (λ frames. frames.items ≡ map (λ f. Some f) (map zero_frame (range_with_len 0 count))) }
{
    let frames = frames_of(alloc, count)?;
    Ok(frames.into_iter().map(Some).collect(alloc)?)
}

/// How many processors hold a frame.
fn held_frames(held: &[Option<u32>]) -> u32
    requires { length held.now ≤ most_actors }
    ensures { result ≡ count_by is_some held.now }
{
    held.iter().filter(|frame| frame.is_some()).count() as u32
}
