//! The frames, and which entries they allow.

ghost use Rattle.std.specs.Prelude.{◌≡◌, ℕ, ◌+◌, ◌%◌, ◌^◌, ◌<◌, ◌≤◌, ◌==◌, ◌&&◌, true, false, Some, None, IfOk, IsSome, IsSomeAnd, length, replicate};
ghost use Rattle.pager_model.specs.Agreement.{ClaimsOrHolds};
ghost use Rattle.pager_model.specs.Bounds.{most_actors, most_frames, most_spaces, space_pages};
ghost use Rattle.pager_model.specs.declared.entry.What.TheVariants.{Take, UseHeld};
ghost use Rattle.pager_model.specs.FrameStates.{FramesAllow, HasNothing, IsFull, IsRefused, IsVictim, MayClaim, AllowsAnswer, claim_in, claimed, counted, dropped, frame_of, frames_after, give_page, has_evictable, held_by, is_short, lowest_claimed, moved, moved_by_answer, named_space, pin_range, start_frames, take_frame, used_at};
ghost use Rattle.pager_model.specs.PreferredSize.{IsWanted};
ghost use Rattle.followed_frames.specs.Ready.{IsReached, IsReady, IsReadyAnswer};

use frame_pool::{Kept, Pool};
use pager_model::{Call, Entry, Frame, NoMemory, Sizes, Victim, Want, What};
use std::alloc::Global;
use std::marker::Model;

/// The frames after some entries.
#[derive(Drop)]
pub struct FollowedFrames {
    pool: Pool,
    /// For each frame the frame itself, where a page has it.
    hands: Vec<Option<Frame>>,
}

impl Model for FollowedFrames {
    ghost use Rattle.pager_model.specs.FrameStates.{FrameState};
    ghost use Rattle.followed_frames.specs.Ready.{AreInHand};

    ghost Value = { FrameState };

    ghost view = { λ f. f.pool };

    ghost invariant = { λ f. AreInHand f.hands.items f.pool };
}

impl FollowedFrames {
    /// All frames are free, and there are these page sizes. `frames` is a multiple of 512, and `processors` counts a daemon.
    pub fn create(
        alloc: Global,
        frames: u32,
        sizes: Sizes,
        processors: u32,
    ) -> Result<FollowedFrames, NoMemory>
        requires whole { frames % 512 ≡ 0 }
        requires frames { frames ≤ most_frames }
        requires processors { processors ≤ most_actors }
        ensures { IfOk result (λ followed. followed ≡ start_frames sizes frames processors) }
    {
        // What has most to drop is made last, so that no way out drops it.
        Ok(FollowedFrames {
            hands: empty_hands(alloc, frames)?,
            pool: Pool::create(alloc, frames, processors, sizes)?,
        })
    }

    /// Whether no frame can be had.
    fn is_full(&self) -> bool
        requires reached { IsReached self.now }
        ensures full { result ≡ true → IsFull self.now }
        ensures not_full { result ≡ false → IsFull self.now → ⊥ }
    {
        self.pool.is_short(1)
    }

    /// A page takes a frame, and it is this one. The pool takes it, whichever it is.
    fn take(&mut self, processor: u32, space: u32, page: u32, frame: u32, want: &Want) -> bool
        requires room { self.old.entries < 2 ^ 45 }
        requires reached { IsReached self.old }
        requires few { space < most_spaces }
        requires unplaced { frame_of self.old space page ≡ None }
        requires wanted { IsWanted want.now page }
        ensures takes { result ≡ true → IsSomeAnd (take_frame self.old space page want.now) (λ t. t.frame ≡ frame) }
        ensures after { result ≡ true → self.new ≡ counted (moved self.old processor (Some space) (Take page frame want.now)) }
        ensures other { result ≡ false → IsSomeAnd (take_frame self.old space page want.now) (λ t. t.frame ≡ frame) → ⊥ }
    {
        let Ok(taken) = self.pool.take(space, page, want) else {
            return false;
        };
        let number = taken.number();
        self.hands[number as usize] = Some(taken);
        number == frame
    }

    /// The processor lets its frame go and takes one for a page, and it is this one.
    fn use_held(&mut self, processor: u32, space: u32, page: u32, frame: u32, want: &Want) -> bool
        requires room { self.old.entries < 2 ^ 45 }
        requires reached { IsReached self.old }
        requires few { space < most_spaces }
        requires holds { IsSome (held_by self.old processor) }
        requires unplaced { frame_of self.old space page ≡ None }
        requires wanted { IsWanted want.now page }
        ensures takes { result ≡ true → IsSomeAnd (take_frame (dropped self.old processor) space page want.now) (λ t. t.frame ≡ frame) }
        ensures after { result ≡ true → self.new ≡ counted (moved self.old processor (Some space) (UseHeld page frame want.now)) }
        ensures other { result ≡ false → IsSomeAnd (take_frame (dropped self.old processor) space page want.now) (λ t. t.frame ≡ frame) → ⊥ }
    {
        let taken = self.pool.use_held(processor, space, page, want);
        let number = taken.number();
        self.hands[number as usize] = Some(taken);
        number == frame
    }

    /// A page gives its frame up. No entry is counted.
    pub fn give(&mut self, space: u32, page: u32, frame: u32)
        requires reached { IsReached self.old }
        requires place { frame_of self.old space page ≡ Some frame }
        ensures { self.new ≡ give_page self.old space page }
    {
        let Some(own) = self.hands[frame as usize].take() else {
            unreachable!()
        };
        self.pool.give(space, page, own);
    }

    /// Counts an entry that gave pages' frames up.
    pub fn end_entry(&mut self)
        requires { self.old.entries < 2 ^ 45 }
        ensures { self.new ≡ counted self.old }
    {
        self.pool.end_entry();
    }

    /// The processor claims the victim, which is this one, and may.
    fn claim(&mut self, mark: u32, processor: u32, victim: &Victim) -> bool
        requires room { self.old.entries < 2 ^ 45 }
        requires reached { IsReached self.old }
        requires known { processor < length self.old.held }
        requires nothing { HasNothing self.old processor }
        ensures victim { result ≡ true → IsVictim self.old victim.now.space victim.now.page victim.now.frame }
        ensures may { result ≡ true → MayClaim self.old mark }
        ensures after { result ≡ true → self.new ≡ counted (claimed self.old victim.now.frame (Some processor)) }
        ensures other { result ≡ false → IsVictim self.old victim.now.space victim.now.page victim.now.frame → MayClaim self.old mark → ⊥ }
    {
        let may = self.may_claim(mark);
        let Ok(found) = self.pool.claim(processor) else {
            return false;
        };
        if !may {
            return false;
        }
        found == *victim
    }

    /// Whether frames are short enough for a claim.
    fn may_claim(&self, mark: u32) -> bool
        requires reached { IsReached self.now }
        ensures may { result ≡ true → MayClaim self.now mark }
        ensures may_not { result ≡ false → MayClaim self.now mark → ⊥ }
    {
        if mark == 0 {
            self.is_full()
        } else {
            self.pool.is_short(mark)
        }
    }

    /// Whether no frame can be had and none may be claimed, with these numbers.
    fn is_refused(&self, wired: u32, claimed: u32, held: u32) -> bool
        requires reached { IsReached self.now }
        ensures refused { result ≡ true → IsRefused self.now wired claimed held }
        ensures other { result ≡ false → IsRefused self.now wired claimed held → ⊥ }
    {
        let counts = self.pool.counts();
        self.is_full()
            && !self.pool.has_victim()
            && counts.wired == wired
            && counts.claimed == claimed
            && counts.held == held
    }

    /// Whether a processor that claims or holds the frame holds it.
    fn holds(&self, processor: u32, frame: u32) -> bool
        ensures holds { result ≡ true → held_by self.now processor ≡ Some frame }
        ensures other { result ≡ false → held_by self.now processor ≡ Some frame → ⊥ }
    {
        self.pool.held_by(processor) == Some(frame)
    }

    /// Whether the processor claims the frame.
    fn claims(&self, processor: u32, frame: u32) -> bool
        requires reached { IsReached self.now }
        ensures claims { result ≡ true → claim_in (used_at self.now frame) ≡ Some processor }
        ensures other { result ≡ false → claim_in (used_at self.now frame) ≡ Some processor → ⊥ }
    {
        self.pool.claimed_by(processor) == Some(frame)
    }

    /// The processor lets the frame go that it holds.
    fn drop_held(&mut self, processor: u32)
        requires room { self.old.entries < 2 ^ 45 }
        requires reached { IsReached self.old }
        requires holds { IsSome (held_by self.old processor) }
        ensures { self.new ≡ counted (dropped self.old processor) }
    {
        self.pool.drop_held(processor);
    }

    /// The processor claims the frame no longer that it claims.
    fn unclaim(&mut self, processor: u32, frame: u32)
        requires room { self.old.entries < 2 ^ 45 }
        requires reached { IsReached self.old }
        requires claims { claim_in (used_at self.old frame) ≡ Some processor }
        ensures { self.new ≡ counted (claimed self.old frame None) }
    {
        self.pool.unclaim(processor);
    }

    /// The page of an evict gives its frame up.
    fn answer(&mut self, space: u32, call: &Call)
        requires room { self.old.entries < 2 ^ 45 }
        requires reached { IsReached self.old }
        requires ready { IsReadyAnswer self.old space call.now }
        ensures allowed { AllowsAnswer self.old space call.now }
        ensures after { self.new ≡ counted (moved_by_answer self.old space call.now) }
    {
        let Call::Evict { page, .. } = *call else {
            unreachable!()
        };
        let Some(frame) = self.pool.frame_of(space, page) else {
            unreachable!()
        };
        self.give(space, page, frame);
        self.end_entry();
    }

    /// The used places of a range are wired, or are no longer, and none of them is claimed that is to be wired.
    fn pin(&mut self, space: u32, first: u32, length: u32, wired: bool) -> bool
        requires room { self.old.entries < 2 ^ 45 }
        requires few { space < most_spaces }
        requires within { first + length ≤ space_pages }
        ensures free { result ≡ true → wired ≡ true → lowest_claimed self.old space first length ≡ None }
        ensures after { result ≡ true → self.new ≡ counted (pin_range self.old space first length wired) }
        ensures other { result ≡ false → (wired ≡ true → lowest_claimed self.old space first length ≡ None) → ⊥ }
    {
        self.pool.pin(space, first, length, wired).is_none()
    }

    /// A page keeps the others of a range from being wired, and it is this one with this frame.
    fn keep(&mut self, space: u32, first: u32, length: u32, kept: Kept) -> bool
        requires room { self.old.entries < 2 ^ 45 }
        requires few { space < most_spaces }
        requires within { first + length ≤ space_pages }
        ensures lowest { result ≡ true → lowest_claimed self.old space first length ≡ Some kept.page }
        ensures place { result ≡ true → frame_of self.old space kept.page ≡ Some kept.frame }
        ensures after { result ≡ true → self.new ≡ counted self.old }
        ensures other { result ≡ false → lowest_claimed self.old space first length ≡ Some kept.page
            → frame_of self.old space kept.page ≡ Some kept.frame → ⊥ }
    {
        match self.pool.pin(space, first, length, true) {
            Some(found) => found == kept,
            None => false,
        }
    }

    /// Whether a daemon's turn of this mark ends so.
    fn rests(&self, mark: u32, short: bool) -> bool
        ensures rests { result ≡ true → (0 < mark) × (short ≡ (is_short self.now mark && has_evictable self.now)) }
        ensures other { result ≡ false → 0 < mark → short ≡ (is_short self.now mark && has_evictable self.now) → ⊥ }
    {
        mark != 0 && short == (self.pool.is_short(mark) && self.pool.has_victim())
    }

    /// Whether the frames allow an entry, of which its processor's order and its space say the rest, and which clears no range. They follow it
    /// where they do.
    pub fn judge(&mut self, mark: u32, entry: &Entry) -> bool
        requires room { self.old.entries < 2 ^ 45 }
        requires reached { IsReached self.old }
        requires ready { IsReady self.old entry.now }
        ensures allowed { result ≡ true → FramesAllow self.old mark entry.now.processor entry.now.space entry.now.what }
        ensures after { result ≡ true → self.new ≡ frames_after self.old entry.now }
        ensures refused { result ≡ false → FramesAllow self.old mark entry.now.processor entry.now.space entry.now.what → ⊥ }
    {
        let space = space_of(entry);
        let processor = entry.processor;
        match entry.what {
            What::Answer { call, .. } => {
                self.answer(space, &call);
                true
            }
            What::Take { page, frame, want } => self.take(processor, space, page, frame, &want),
            What::Give { page, frame } => {
                self.give(space, page, frame);
                self.end_entry();
                true
            }
            What::Claim {
                space: owner,
                page,
                frame,
                ..
            } => {
                let victim = Victim {
                    space: owner,
                    page,
                    frame,
                };
                self.claim(mark, processor, &victim)
            }
            What::UseHeld { page, frame, want } => {
                self.use_held(processor, space, page, frame, &want)
            }
            What::DropHeld { .. } => {
                self.drop_held(processor);
                true
            }
            What::Got { frame } => {
                let holds = self.holds(processor, frame);
                self.end_entry();
                holds
            }
            What::Unclaim { frame } => {
                if !self.claims(processor, frame) {
                    return false;
                }
                self.unclaim(processor, frame);
                true
            }
            What::Refused {
                wired,
                claimed,
                held,
            } => {
                let refused = self.is_refused(wired, claimed, held);
                self.end_entry();
                refused
            }
            What::Pin {
                first,
                length,
                wired,
            } => self.pin(space, first, length, wired),
            What::Kept {
                first,
                length,
                page,
                frame,
            } => self.keep(space, first, length, Kept { page, frame }),
            What::Rest { short } => {
                let rests = self.rests(mark, short);
                self.end_entry();
                rests
            }
            What::Out { .. } | What::Failed { .. } | What::Clear { .. } => unreachable!(),
        }
    }
}

/// No page has a frame.
fn empty_hands(alloc: Global, frames: u32) -> Result<Vec<Option<Frame>>, NoMemory>
    ensures { IfOk result (λ hands. hands.items ≡ replicate frames None) }
{
    let mut hands = Vec::with_capacity(alloc, frames as usize)?;
    for _ in 0..frames {
        hands.push_reserved(None);
    }
    Ok(hands)
}

/// The space that an entry names.
fn space_of(entry: &Entry) -> u32
    ensures { result ≡ named_space entry.now.space }
{
    match entry.space {
        Some(space) => space,
        None => 0,
    }
}
