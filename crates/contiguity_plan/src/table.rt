//! The use of each frame, as a history leaves it.

ghost use Rattle.std.specs.Prelude.{◌≡◌, ℕ, ◌+◌, ◌^◌, ◌<◌, ◌≤◌, ◌++◌, ◌∷◌, [], List, length, Some, None, IfOk, OnOk, IsSome, IsSomeAnd, slice_set};
ghost use Rattle.std.specs.List.{All};
ghost use Rattle.pager_model.specs.Bounds.{most_spaces, most_actors, most_frames};
ghost use Rattle.pager_model.specs.declared.entry.Entry.{Entry as Item};
ghost use Rattle.pager_model.specs.declared.entry.Numbered.{Numbered as NumberedItem};
ghost use Rattle.pager_model.specs.FrameStates.{FrameState, start_frames, frame_of, take_frame, state_taken, held_given, give_if_used, give_range, pin_range, claimed, dropped, moved_by_answer, moved, AllowsAnswer, FramesAllow, named_space};
ghost use Rattle.pager_model.specs.Legal.{IsLegal, MayFollow, frames_at, entries_in};
ghost use Rattle.pager_model.specs.Settings.{Given};
ghost use Rattle.pager_model.specs.SizeSets.{SizeSet};
ghost use Rattle.pager_laws.specs.Laid.{IsSound};
ghost use Rattle.contiguity_plan.specs.Emptying.{IsPlanned};
ghost use Rattle.contiguity_plan.specs.Places.{place_in, place_count};
ghost use Rattle.contiguity_plan.specs.Tables.{use_in, claim_of, reclaimed, pinned, evicted, IsRight};

use crate::cheapest::{cheapest, pages_of};
use crate::places::{self, Places, lies_in};
use crate::plan::{PageOf, Plan};
use pager_model::{Call, Entry, Extent, MOST_ACTORS, MOST_SPACES, NoMemory, Size, Want, What};
use run_history::History;
use std::alloc::Global;

/// The page that uses a frame, whether its region is wired, and which processor claims the frame.
#[derive(Clone, Copy)]
pub(crate) struct Use {
    pub(crate) page: PageOf,
    pub(crate) wired: bool,
    pub(crate) claim: Option<u32>,
}

/// What uses each frame, and which frames processors hold. It knows no reservations.
#[derive(Drop)]
pub(crate) struct Table {
    uses: Vec<Option<Use>>,
    /// For each processor the frame that it holds.
    held: Vec<Option<u32>>,
    /// For each space the frames of its pages.
    places: Vec<Places>,
}

/// What uses the frame.
pub(crate) fn use_of(uses: &[Option<Use>], frame: u32) -> Option<Use>
    ensures { result ≡ use_in uses.now frame }
{
    uses.get(frame as usize).copied().flatten()
}

/// The frame has this use from now on.
fn set_use(uses: &mut Vec<Option<Use>>, frame: u32, value: Option<Use>)
    ensures { uses.new.items ≡ slice_set uses.old.items frame value }
{
    if (frame as usize) < uses.len() {
        uses[frame as usize] = value;
    }
}

/// The processor holds this frame from now on, or none.
fn set_hand(held: &mut Vec<Option<u32>>, processor: u32, frame: Option<u32>)
    ensures { held.new.items ≡ slice_set held.old.items processor frame }
{
    if (processor as usize) < held.len() {
        held[processor as usize] = frame;
    }
}

/// Who claims a frame that is given up holds it then.
fn hand_over(held: &mut Vec<Option<u32>>, claim: Option<u32>, frame: u32)
    ensures { held.new.items ≡ held_given claim frame held.old.items }
{
    if let Some(processor) = claim {
        set_hand(held, processor, Some(frame));
    }
}

/// The processor that claims the frame of a use.
fn claim_of(used: Option<Use>) -> Option<u32>
    ensures { result ≡ claim_of used }
{
    match used {
        Some(used) => used.claim,
        None => None,
    }
}

/// The use with this claim.
fn reclaimed(used: Option<Use>, claim: Option<u32>) -> Option<Use>
    ensures { result ≡ reclaimed claim used }
{
    match used {
        Some(used) => Some(Use { claim, ..used }),
        None => None,
    }
}

/// The use, wired or no longer where its page is one of the range.
fn pinned(used: Option<Use>, space: u32, first: u32, count: u32, wired: bool) -> Option<Use>
    ensures { result ≡ pinned space first count wired used }
{
    match used {
        Some(used) if used.page.space == space && lies_in(used.page.page, first, count) => {
            Some(Use { wired, ..used })
        }
        used => used,
    }
}

/// The uses of the pages of a range are wired, or are no longer.
fn pin_uses(uses: &mut Vec<Option<Use>>, space: u32, first: u32, count: u32, wired: bool)
    ensures long { length uses.new.items ≡ length uses.old.items }
    ensures each { (frame : ℕ) → use_in uses.new.items frame ≡ pinned space first count wired (use_in uses.old.items frame) }
{
    for frame in 0..uses.len() {
        uses[frame] = pinned(uses[frame], space, first, count, wired);
    }
}

/// The page that an evict is of.
fn evicted(call: &Call) -> Option<u32>
    ensures { result ≡ evicted call.now }
{
    match *call {
        Call::Evict { page, .. } => Some(page),
        _ => None,
    }
}

/// How many frames an extent of the size has. The level tells that it is one of the four sizes.
fn frames_in(size: Size) -> u32
    ensures level { size ≤ 3 }
    ensures frames { result ≡ 8 ^ size }
{
    Size::at_level(size.level()).pages()
}

/// The space that an entry names.
fn space_of(entry: &Entry) -> u32
    ensures { result ≡ named_space entry.now.space }
{
    match entry.space {
        Some(space) => space,
        None => 0,
    }
}

impl Table {
    /// The table before any entry.
    pub(crate) fn create(alloc: Global, frames: u32) -> Result<Table, NoMemory>
        ensures spaces { IfOk result (λ table. length table.places.items ≡ most_spaces) }
        ensures right { IfOk result (λ table. (z : SizeSet) (processors : ℕ) → processors ≤ most_actors → IsRight (start_frames z frames processors) table) }
    {
        Ok(Table {
            uses: vec![in alloc; None; frames as usize]?,
            held: vec![in alloc; None; MOST_ACTORS]?,
            places: places::create(alloc, MOST_SPACES)?,
        })
    }

    /// The page, which has no frame, takes this one.
    fn take(&mut self, page: PageOf, frame: u32, want: Want) -> Result<(), NoMemory>
        requires { page.space < length self.old.places.items }
        ensures spaces { length self.new.places.items ≡ length self.old.places.items }
        ensures right { OnOk result ((frames processors : ℕ) (st : FrameState) → IsSound frames processors st → IsRight st self.old
            → frame_of st page.space page.page ≡ None → IsSomeAnd (take_frame st page.space page.page want) (λ t. t.frame ≡ frame)
            → IsRight (state_taken st (take_frame st page.space page.page want)) self.new) }
    {
        places::insert(&mut self.places, page.space, page.page, frame)?;
        let value = Use {
            page,
            wired: want.wired,
            claim: None,
        };
        set_use(&mut self.uses, frame, Some(value));
        Ok(())
    }

    /// The frame is used no more, and its claimer holds it then.
    fn vacate(&mut self, frame: u32)
        ensures uses { self.new.uses.items ≡ slice_set self.old.uses.items frame None }
        ensures held { self.new.held.items ≡ held_given (claim_of (use_in self.old.uses.items frame)) frame self.old.held.items }
        ensures places { self.new.places.items ≡ self.old.places.items }
    {
        let claim = claim_of(use_of(&self.uses, frame));
        set_use(&mut self.uses, frame, None);
        hand_over(&mut self.held, claim, frame);
    }

    /// The page gives its frame up, where it has one.
    fn give(&mut self, space: u32, page: u32)
        requires { space < length self.old.places.items }
        ensures spaces { length self.new.places.items ≡ length self.old.places.items }
        ensures fewer { IsSome (place_in self.old.places.items space page) → place_count self.new.places.items < place_count self.old.places.items }
        ensures right { (frames processors : ℕ) (st : FrameState) → IsSound frames processors st → IsRight st self.old
            → IsRight (give_if_used space st page) self.new }
    {
        if let Some(frame) = places::remove(&mut self.places, space, page) {
            self.vacate(frame);
        }
    }

    /// The pages of a range give their frames up. It looks at those alone that have one.
    fn clear(&mut self, space: u32, first: u32, count: u32)
        requires { space < length self.old.places.items }
        ensures spaces { length self.new.places.items ≡ length self.old.places.items }
        ensures right { (frames processors : ℕ) (st : FrameState) → IsSound frames processors st → IsRight st self.old
            → IsRight (give_range st space first count) self.new }
    {
        while let Some(page) = places::lowest(&self.places, space, first, count) {
            self.give(space, page);
        }
    }

    /// The used frames of a range of pages are wired, or are no longer.
    fn pin(&mut self, space: u32, first: u32, count: u32, wired: bool)
        ensures places { self.new.places.items ≡ self.old.places.items }
        ensures right { (frames processors : ℕ) (st : FrameState) → IsSound frames processors st → IsRight st self.old
            → IsRight (pin_range st space first count wired) self.new }
    {
        pin_uses(&mut self.uses, space, first, count, wired);
    }

    /// This processor claims the used frame, or none does.
    fn claim(&mut self, frame: u32, claim: Option<u32>)
        ensures places { self.new.places.items ≡ self.old.places.items }
        ensures right { (st : FrameState) → IsRight st self.old → IsRight (claimed st frame claim) self.new }
    {
        let value = reclaimed(use_of(&self.uses, frame), claim);
        set_use(&mut self.uses, frame, value);
    }

    /// The processor holds no frame from now on.
    fn drop_held(&mut self, processor: u32)
        ensures places { self.new.places.items ≡ self.old.places.items }
        ensures right { (st : FrameState) → IsRight st self.old → IsRight (dropped st processor) self.new }
    {
        set_hand(&mut self.held, processor, None);
    }

    /// An answer that names the frames is of an evict, whose page gives its frame up.
    fn answer(&mut self, space: u32, call: &Call)
        requires { space < length self.old.places.items }
        ensures spaces { length self.new.places.items ≡ length self.old.places.items }
        ensures right { (frames processors : ℕ) (st : FrameState) → IsSound frames processors st → IsRight st self.old → AllowsAnswer st space call.now
            → IsRight (moved_by_answer st space call.now) self.new }
    {
        if let Some(page) = evicted(call) {
            self.give(space, page);
        }
    }

    /// The processor lets the frame that it holds go, and the page takes one.
    fn use_held(
        &mut self,
        processor: u32,
        page: PageOf,
        frame: u32,
        want: Want,
    ) -> Result<(), NoMemory>
        requires { page.space < length self.old.places.items }
        ensures spaces { length self.new.places.items ≡ length self.old.places.items }
        ensures right { OnOk result ((frames processors : ℕ) (st : FrameState) → IsSound frames processors st → IsRight st self.old
            → frame_of st page.space page.page ≡ None → IsSomeAnd (take_frame (dropped st processor) page.space page.page want) (λ t. t.frame ≡ frame)
            → IsRight (state_taken (dropped st processor) (take_frame (dropped st processor) page.space page.page want)) self.new) }
    {
        self.drop_held(processor);
        self.take(page, frame, want)?;
        Ok(())
    }

    /// What an entry on the frames does.
    fn step(&mut self, entry: &Entry) -> Result<(), NoMemory>
        requires { named_space entry.now.space < length self.old.places.items }
        ensures spaces { length self.new.places.items ≡ length self.old.places.items }
        ensures right { OnOk result ((frames processors mark : ℕ) (st : FrameState) → IsSound frames processors st → IsRight st self.old
            → FramesAllow st mark entry.now.processor entry.now.space entry.now.what
            → IsRight (moved st entry.now.processor entry.now.space entry.now.what) self.new) }
    {
        let space = space_of(entry);
        match entry.what {
            What::Answer { call, .. } => {
                self.answer(space, &call);
                Ok(())
            }
            What::Take { page, frame, want } => {
                self.take(PageOf { space, page }, frame, want)?;
                Ok(())
            }
            What::Give { page, .. } => {
                self.give(space, page);
                Ok(())
            }
            What::Clear { first, length } => {
                self.clear(space, first, length);
                Ok(())
            }
            What::Claim { frame, .. } => {
                self.claim(frame, Some(entry.processor));
                Ok(())
            }
            What::UseHeld { page, frame, want } => {
                self.use_held(entry.processor, PageOf { space, page }, frame, want)?;
                Ok(())
            }
            What::DropHeld { .. } => {
                self.drop_held(entry.processor);
                Ok(())
            }
            What::Unclaim { frame } => {
                self.claim(frame, None);
                Ok(())
            }
            What::Pin {
                first,
                length,
                wired,
            } => {
                self.pin(space, first, length, wired);
                Ok(())
            }
            What::Out { .. }
            | What::Failed { .. }
            | What::Got { .. }
            | What::Refused { .. }
            | What::Kept { .. }
            | What::Rest { .. } => Ok(()),
        }
    }

    /// What an entry does.
    fn follow_one(&mut self, entry: &Entry) -> Result<(), NoMemory>
        requires { named_space entry.now.space < length self.old.places.items }
        ensures spaces { length self.new.places.items ≡ length self.old.places.items }
        ensures right { OnOk result ((g : Given) (before : List Item) → IsLegal g before → MayFollow g before entry.now → IsRight (frames_at g before) self.old
            → IsRight (frames_at g (before ++ entry.now ∷ [])) self.new) }
    {
        if entry.frames {
            self.step(entry)?;
        }
        Ok(())
    }

    /// What the entries of a history do, from the beginning on.
    pub(crate) fn follow(&mut self, history: &History) -> Result<(), NoMemory>
        requires spaces { length self.old.places.items ≡ most_spaces }
        requires known { All (λ (n : NumberedItem). named_space n.entry.space < most_spaces) history.now.items }
        ensures right { OnOk result ((g : Given) → IsLegal g (entries_in history.now.items) → IsRight (frames_at g []) self.old
            → IsRight (frames_at g (entries_in history.now.items)) self.new) }
    {
        for place in 0..history.len() {
            let Some(numbered) = history.get(place) else {
                unreachable!()
            };
            self.follow_one(&numbered.entry)?;
        }
        Ok(())
    }

    /// What is to be evicted to empty an extent of this size.
    pub(crate) fn plan(
        &self,
        alloc: Global,
        frames: u32,
        size: Size,
    ) -> Result<Option<Plan>, NoMemory>
        requires { frames ≤ most_frames }
        ensures { IfOk result (λ plan. (st : FrameState) → IsRight st self.now → IsPlanned st frames size plan) }
    {
        let count = frames_in(size);
        let Some(best) = cheapest(&self.uses, &self.held, frames, count) else {
            return Ok(None);
        };
        let first = best.number * count;
        let pages = pages_of(alloc, &self.uses, first, count)?;
        Ok(Some(Plan {
            extent: Extent { size, first },
            pages,
        }))
    }
}
