ghost use Rattle.std.specs.Prelude.{◌≡◌, ℕ, ◌&&◌, nat_lt, nat_le, if◌then◌else◌, Some, None, true, false, replicate, length, slice_set, ◌<◌, IfOk, IfErr, IfSome, IfNone, is_some};
ghost use Rattle.std.specs.Result.{result_err};
ghost use Rattle.pager_model.specs.FrameStates.{Taking, start_frames, layout_of, used_at, held_by, frame_of, claim_in, take_frame, counted, give_page, claimed, pin_range, lowest_claimed, dropped, IsVictim};
ghost use Rattle.pager_model.specs.FrameStates.{free_count, used_count, reserved_count, wired_count, claimed_count, held_count};
ghost use Rattle.pager_model.specs.Layouts.{preferred_in};
ghost use Rattle.frame_table.specs.Claims.{IsClaimOf};
ghost use Rattle.frame_table.specs.Refusals.{is_setting, is_wanted, is_page, is_range, is_processor, holds_any, claims_any};
ghost use Rattle.frame_table.specs.Refusals.{want_refusal, take_refusal, page_refusal, claim_refusal, unclaim_refusal, collect_refusal, drop_refusal, use_refusal, pin_refusal};

use crate::refusal::Refusal;
use frame_pool::{Counts, Kept, Pool};
use pager_model::{
    Frame, MOST_ACTORS, MOST_FRAMES, MOST_SPACES, NoMemory, PAGES, Size, Sizes, Victim, Want,
};
use std::alloc::Global;
use std::marker::Model;

/// The frame that a page gave up, and the processor that claimed it and holds it now, if one claimed it.
#[derive(Clone, Copy, Debug, PartialEq, Eq)]
pub struct Given {
    pub frame: u32,
    pub claimer: Option<u32>,
}

/// The frame that a processor claims, or holds since its page gave it up.
#[derive(Clone, Copy, Debug, PartialEq, Eq)]
pub struct Collected {
    pub frame: u32,
    pub is_held: bool,
}

/// Owns every frame. Contracts see it as the state of the frames.
#[derive(Drop)]
pub struct FrameTable {
    pool: Pool,
    // for each frame the frame itself, where a page has it
    out: Vec<Option<Frame>>,
}

impl Model for FrameTable {
    ghost use Rattle.pager_model.specs.FrameStates.{FrameState};
    ghost use Rattle.frame_table.specs.Tables.{IsTable};

    ghost Value = { FrameState };

    ghost view = { λ t. t.pool };

    ghost invariant = { λ t. IsTable t.out.items t.pool };
}

impl FrameTable {
    /// All frames are free, and there are these page sizes. All the memory that the table ever takes is taken here.
    pub fn create(
        alloc: Global,
        frames: u32,
        processors: u32,
        sizes: Sizes,
    ) -> Result<FrameTable, Refusal>
        ensures created { IfOk result (λ table. (is_setting frames processors ≡ true) × (table ≡ start_frames sizes frames processors)) }
        ensures refused { IfErr result (λ why. why ≡ (if is_setting frames processors then Refusal.NoMemory else Refusal.Range)) }
    {
        if !is_setting(frames, processors) {
            return Err(Refusal::Range);
        }
        match make(alloc, frames, processors, sizes) {
            Ok(table) => Ok(table),
            Err(NoMemory) => Err(Refusal::NoMemory),
        }
    }

    /// The size that a new reservation round the page is tried with first, before frames are looked at.
    pub fn preferred(&self, space: u32, page: u32, want: &Want) -> Result<Size, Refusal>
        ensures refused { result_err result ≡ want_refusal space page want.now }
        ensures preferred { IfOk result (λ size. size ≡ preferred_in (layout_of self.now) space page want.now) }
    {
        if !is_wanted(space, page, want) {
            return Err(Refusal::Range);
        }
        Ok(self.pool.preferred(space, page, want))
    }

    /// A page that has no frame gets one. Answers its number.
    pub fn take(&mut self, space: u32, page: u32, want: &Want) -> Result<u32, Refusal>
        ensures refused { result_err result ≡ take_refusal self.old space page want.now }
        ensures taken { IfOk result (λ frame. (t : Taking) × (take_frame self.old space page want.now ≡ Some t)
            × (self.new ≡ counted t.state) × (frame ≡ t.frame)) }
        ensures same { IfErr result (λ _. self.new ≡ self.old) }
    {
        if !is_wanted(space, page, want) {
            return Err(Refusal::Range);
        }
        if self.pool.frame_of(space, page).is_some() {
            return Err(Refusal::Placed);
        }
        if !self.pool.has_room() {
            return Err(Refusal::Counted);
        }
        match self.pool.take(space, page, want) {
            Ok(frame) => Ok(put_out(&mut self.out, frame)),
            Err(_) => Err(Refusal::Full),
        }
    }

    /// The number of the page's frame.
    pub fn frame_of(&self, space: u32, page: u32) -> Result<u32, Refusal>
        ensures refused { result_err result ≡ page_refusal self.now space page }
        ensures found { IfOk result (λ frame. frame_of self.now space page ≡ Some frame) }
    {
        if !is_page(space, page) {
            return Err(Refusal::Range);
        }
        match self.pool.frame_of(space, page) {
            Some(frame) => Ok(frame),
            None => Err(Refusal::Unplaced),
        }
    }

    /// A page gives its frame up.
    pub fn give(&mut self, space: u32, page: u32) -> Result<Given, Refusal>
        ensures refused { result_err result ≡ page_refusal self.old space page }
        ensures frame { IfOk result (λ g. frame_of self.old space page ≡ Some g.frame) }
        ensures claimer { IfOk result (λ g. g.claimer ≡ claim_in (used_at self.old g.frame)) }
        ensures given { IfOk result (λ _. self.new ≡ give_page self.old space page) }
        ensures same { IfErr result (λ _. self.new ≡ self.old) }
    {
        if !is_page(space, page) {
            return Err(Refusal::Range);
        }
        let Some(number) = self.pool.frame_of(space, page) else {
            return Err(Refusal::Unplaced);
        };
        let Some(frame) = self.out[number as usize].take() else {
            unreachable!()
        };
        Ok(Given {
            frame: number,
            claimer: self.pool.give(space, page, frame),
        })
    }

    /// A processor claims the victim: of the used frames that are neither wired nor claimed the one of least age.
    pub fn claim(&mut self, processor: u32) -> Result<Victim, Refusal>
        ensures refused { result_err result ≡ claim_refusal self.old processor }
        ensures victim { IfOk result (λ v. IsVictim self.old v.space v.page v.frame) }
        ensures claimed { IfOk result (λ v. self.new ≡ counted (claimed self.old v.frame (Some processor))) }
        ensures same { IfErr result (λ _. self.new ≡ self.old) }
    {
        if !self.has_processor(processor) {
            return Err(Refusal::Range);
        }
        if self.holds_any(processor) || self.claims_any(processor) {
            return Err(Refusal::Busy);
        }
        if !self.pool.has_room() {
            return Err(Refusal::Counted);
        }
        match self.pool.claim(processor) {
            Ok(victim) => Ok(victim),
            Err(_) => Err(Refusal::NoVictim),
        }
    }

    /// The frame that a processor claims is claimed no more. Answers its number.
    pub fn unclaim(&mut self, processor: u32) -> Result<u32, Refusal>
        ensures refused { result_err result ≡ unclaim_refusal self.old processor }
        ensures frame { IfOk result (IsClaimOf self.old processor) }
        ensures unclaimed { IfOk result (λ frame. self.new ≡ counted (claimed self.old frame None)) }
        ensures same { IfErr result (λ _. self.new ≡ self.old) }
    {
        if !self.has_processor(processor) {
            return Err(Refusal::Range);
        }
        if !self.claims_any(processor) {
            return Err(Refusal::Idle);
        }
        if !self.pool.has_room() {
            return Err(Refusal::Counted);
        }
        Ok(self.pool.unclaim(processor))
    }

    /// What became of the frame that a processor claimed.
    pub fn collect(&self, processor: u32) -> Result<Collected, Refusal>
        ensures refused { result_err result ≡ collect_refusal self.now processor }
        ensures is_held { IfOk result (λ c. c.is_held ≡ holds_any self.now processor) }
        ensures held { IfOk result (λ c. c.is_held ≡ true → held_by self.now processor ≡ Some c.frame) }
        ensures claimed { IfOk result (λ c. c.is_held ≡ false → IsClaimOf self.now processor c.frame) }
    {
        if !self.has_processor(processor) {
            return Err(Refusal::Range);
        }
        if let Some(frame) = self.pool.held_by(processor) {
            return Ok(Collected {
                frame,
                is_held: true,
            });
        }
        match self.pool.claimed_by(processor) {
            Some(frame) => Ok(Collected {
                frame,
                is_held: false,
            }),
            None => Err(Refusal::Idle),
        }
    }

    /// The frame that a processor holds becomes free. Answers its number.
    pub fn drop_held(&mut self, processor: u32) -> Result<u32, Refusal>
        ensures refused { result_err result ≡ drop_refusal self.old processor }
        ensures frame { IfOk result (λ frame. held_by self.old processor ≡ Some frame) }
        ensures dropped { IfOk result (λ _. self.new ≡ counted (dropped self.old processor)) }
        ensures same { IfErr result (λ _. self.new ≡ self.old) }
    {
        if !self.has_processor(processor) {
            return Err(Refusal::Range);
        }
        if !self.holds_any(processor) {
            return Err(Refusal::Idle);
        }
        if !self.pool.has_room() {
            return Err(Refusal::Counted);
        }
        Ok(self.pool.drop_held(processor))
    }

    /// The frame that a processor holds becomes free, and a page that has no frame gets this one or another. Answers its number.
    pub fn use_held(
        &mut self,
        processor: u32,
        space: u32,
        page: u32,
        want: &Want,
    ) -> Result<u32, Refusal>
        ensures refused { result_err result ≡ use_refusal self.old processor space page want.now }
        ensures taken { IfOk result (λ frame. (t : Taking) × (take_frame (dropped self.old processor) space page want.now ≡ Some t)
            × (self.new ≡ counted t.state) × (frame ≡ t.frame)) }
        ensures same { IfErr result (λ _. self.new ≡ self.old) }
    {
        if !self.has_processor(processor) || !is_wanted(space, page, want) {
            return Err(Refusal::Range);
        }
        if !self.holds_any(processor) {
            return Err(Refusal::Idle);
        }
        if self.pool.frame_of(space, page).is_some() {
            return Err(Refusal::Placed);
        }
        if !self.pool.has_room() {
            return Err(Refusal::Counted);
        }
        let frame = self.pool.use_held(processor, space, page, want);
        Ok(put_out(&mut self.out, frame))
    }

    /// The used frames of a range of pages are wired, or are no longer. If one that is to be wired is claimed, none changes, and the lowest such page
    /// is answered. The change is counted either way.
    pub fn pin(
        &mut self,
        space: u32,
        first: u32,
        length: u32,
        wired: bool,
    ) -> Result<Option<Kept>, Refusal>
        ensures refused { result_err result ≡ pin_refusal self.old space first length }
        ensures kept { IfOk result (λ kept. IfSome kept (λ k. (wired ≡ true) × (lowest_claimed self.old space first length ≡ Some k.page)
            × (frame_of self.old space k.page ≡ Some k.frame) × (self.new ≡ counted self.old))) }
        ensures pinned { IfOk result (λ kept. IfNone kept ((wired ≡ true → lowest_claimed self.old space first length ≡ None)
            × (self.new ≡ counted (pin_range self.old space first length wired)))) }
        ensures same { IfErr result (λ _. self.new ≡ self.old) }
    {
        if !is_range(space, first, length) {
            return Err(Refusal::Range);
        }
        if !self.pool.has_room() {
            return Err(Refusal::Counted);
        }
        Ok(self.pool.pin(space, first, length, wired))
    }

    /// How many frames are in each role.
    pub fn counts(&self) -> Counts
        ensures free { result.free ≡ free_count self.now }
        ensures reserved { result.reserved ≡ reserved_count self.now }
        ensures used { result.used ≡ used_count self.now }
        ensures wired { result.wired ≡ wired_count self.now }
        ensures claimed { result.claimed ≡ claimed_count self.now }
        ensures held { result.held ≡ held_count self.now }
    {
        self.pool.counts()
    }

    /// How many takings broke a reservation.
    pub fn preempted(&self) -> u64
        ensures { result ≡ self.now.preemptions }
    {
        self.pool.preempted()
    }

    /// Whether there is the processor.
    fn has_processor(&self, processor: u32) -> bool
        ensures { result ≡ is_processor self.now processor }
    {
        (processor as usize) < self.pool.processors()
    }

    /// Whether the processor holds a frame.
    fn holds_any(&self, processor: u32) -> bool
        ensures { result ≡ holds_any self.now processor }
    {
        self.pool.held_by(processor).is_some()
    }

    /// Whether the processor claims a frame.
    fn claims_any(&self, processor: u32) -> bool
        ensures { result ≡ claims_any self.now processor }
    {
        self.pool.claimed_by(processor).is_some()
    }
}

/// All frames are free.
fn make(alloc: Global, frames: u32, processors: u32, sizes: Sizes) -> Result<FrameTable, NoMemory>
    requires { is_setting frames processors ≡ true }
    ensures { IfOk result (λ table. table ≡ start_frames sizes frames processors) }
{
    let out = none_out(alloc, frames)?;
    Ok(FrameTable {
        pool: Pool::create(alloc, frames, processors, sizes)?,
        out,
    })
}

/// For each frame none.
fn none_out(alloc: Global, frames: u32) -> Result<Vec<Option<Frame>>, NoMemory>
    ensures { IfOk result (λ out. out.items ≡ replicate frames None) }
{
    let mut out = Vec::with_capacity(alloc, frames as usize)?;
    for _ in 0..frames {
        out.push_reserved(None);
    }
    Ok(out)
}

/// Keeps a frame at its number, which is answered.
fn put_out(out: &mut Vec<Option<Frame>>, frame: Frame) -> u32
    requires { frame.number < length out.old.items }
    ensures number { result ≡ frame.number }
    ensures put { out.new.items ≡ slice_set out.old.items frame.number (Some frame) }
{
    let number = frame.number();
    out[number as usize] = Some(frame);
    number
}

/// Whether a table may have so many frames and processors.
fn is_setting(frames: u32, processors: u32) -> bool
    ensures { result ≡ is_setting frames processors }
{
    frames % 512 == 0 && frames <= MOST_FRAMES && processors as usize <= MOST_ACTORS
}

/// Whether there are the space and the page.
fn is_page(space: u32, page: u32) -> bool
    ensures { result ≡ is_page space page }
{
    space < MOST_SPACES && page < PAGES
}

/// Whether there is the space, and the want is one for the page.
fn is_wanted(space: u32, page: u32, want: &Want) -> bool
    ensures { result ≡ is_wanted space page want.now }
{
    space < MOST_SPACES
        && want.low <= page
        && page < want.high
        && want.high <= PAGES
        && want.cap > 0
}

/// Whether there are the space and the pages of the range.
fn is_range(space: u32, first: u32, length: u32) -> bool
    ensures { result ≡ is_range space first length }
{
    space < MOST_SPACES && first <= PAGES && length <= PAGES - first
}
