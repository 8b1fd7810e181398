//! Which entries a space allows.

ghost use Rattle.std.specs.Prelude.{◌≡◌, ℕ, ◌<◌, Some, length, true, false};
ghost use Rattle.pager_model.specs.PreferredSize.{IsWanted};
ghost use Rattle.pager_model.specs.Regions.{range_in, region_at};
ghost use Rattle.pager_model.specs.SpaceStates.{SpaceState, IsNeeded, IsRegionOf, IsResident, IsWantedFor, MayPin, Rises};
ghost use Rattle.followed_space.specs.Follows.{AnswersLine};
ghost use Rattle.tiles.specs.Resident.{frame_of_page};
ghost use Rattle.told_space.specs.Told.{AllowsBefore, AllowsWhat, IsOwner, Stands, WantsFor, flat_in, kept_of, state_in};

use crate::calls::{has_right, is_within};
use crate::space::ToldSpace;
use pager_model::{Entry, Kind, Need, Want, What};

impl ToldSpace {
    /// Whether the space allows an entry, but for an answer's size. Where a page is to have the frame that is unclaimed, it is this one.
    pub fn allows(&self, entry: &Entry, owner: u32) -> bool
        requires line { AnswersLine entry.now.what }
        requires known { entry.now.processor < length self.now.images }
        requires stands { (st : SpaceState) × Stands (kept_of self.now) st }
        requires owner { (frame : ℕ) → entry.now.what ≡ What.Unclaim frame → IsOwner (kept_of self.now) frame owner }
        ensures allows { result ≡ true → AllowsBefore (state_in (kept_of self.now)) entry.now }
        ensures refuses { result ≡ false → AllowsBefore (state_in (kept_of self.now)) entry.now → ⊥ }
        ensures wants { result ≡ true → WantsFor entry.now.what }
    {
        self.next.allows(entry.processor, &entry.what) && self.allows_what(entry, owner)
    }

    /// Whether the space allows what an entry says, where its processor may go on.
    fn allows_what(&self, entry: &Entry, owner: u32) -> bool
        requires line { AnswersLine entry.now.what }
        requires known { entry.now.processor < length self.now.images }
        requires stands { (st : SpaceState) × Stands (kept_of self.now) st }
        requires owner { (frame : ℕ) → entry.now.what ≡ What.Unclaim frame → IsOwner (kept_of self.now) frame owner }
        ensures allows { result ≡ true → AllowsWhat (state_in (kept_of self.now)) entry.now.frames entry.now.processor entry.now.what }
        ensures refuses { result ≡ false → AllowsWhat (state_in (kept_of self.now)) entry.now.frames entry.now.processor entry.now.what → ⊥ }
        ensures wants { result ≡ true → WantsFor entry.now.what }
    {
        match entry.what {
            What::Answer { call, answered, .. } => {
                self.allows_answer(entry.processor, entry.frames, &call, &answered)
            }
            What::Out { page, written } => self.is_mapped(page, written),
            What::Failed {
                page,
                writing,
                count,
            } => self.is_mapped(page, writing) && self.rises(count),
            What::Take { page, want, .. } => self.may_fill(page, want),
            What::UseHeld { page, want, .. } => self.may_fill(page, want),
            What::Give { page, frame } => self.is_in_frame(page, frame, false),
            What::Clear { first, length } => self.may_clear(first, length),
            What::Pin {
                first,
                length,
                wired,
            } => self.may_pin(first, length, wired),
            What::Kept { first, length, .. } => self.is_region(first, length),
            What::Claim { need, .. } => self.is_needed(need),
            What::Unclaim { frame } => self.is_in_frame(owner, frame, true),
            What::DropHeld { .. } | What::Got { .. } | What::Refused { .. } | What::Rest { .. } =>
                false,
        }
    }

    /// Whether a page is resident, and dirty or not.
    fn is_mapped(&self, page: u32, dirty: bool) -> bool
        ensures mapped { result ≡ true → IsResident (frame_of_page self.now.space.pages) page × ((flat_in (kept_of self.now)).dirty page ≡ dirty) }
        ensures other { result ≡ false → IsResident (frame_of_page self.now.space.pages) page → (flat_in (kept_of self.now)).dirty page ≡ dirty → ⊥ }
    {
        match self.space.mapping(page) {
            Some(mapping) => mapping.dirty == dirty,
            None => false,
        }
    }

    /// Whether a page has this frame, and is dirty or not.
    fn is_in_frame(&self, page: u32, frame: u32, dirty: bool) -> bool
        ensures has { result ≡ true → (frame_of_page self.now.space.pages page ≡ Some frame) × ((flat_in (kept_of self.now)).dirty page ≡ dirty) }
        ensures other { result ≡ false → frame_of_page self.now.space.pages page ≡ Some frame → (flat_in (kept_of self.now)).dirty page ≡ dirty → ⊥ }
    {
        match self.space.mapping(page) {
            Some(mapping) => mapping.frame == frame && mapping.dirty == dirty,
            None => false,
        }
    }

    /// Whether a page may get a frame with this want.
    fn may_fill(&self, page: u32, want: Want) -> bool
        ensures may { result ≡ true → IsWantedFor (state_in (kept_of self.now)) page want }
        ensures may_not { result ≡ false → IsWantedFor (state_in (kept_of self.now)) page want → ⊥ }
        ensures for_page { result ≡ true → IsWanted want page }
    {
        let Some(found) = self.space.want_at(page) else {
            return false;
        };
        found == want && !self.is_resident(page)
    }

    /// Whether the pages of a range may give their frames up: those of a range in one region.
    fn may_clear(&self, first: u32, length: u32) -> bool
        ensures { result ≡ range_in first length (region_at self.now.space.regions first) }
    {
        match self.space.region_at(first) {
            Some(region) => is_within(first, length, region),
            None => false,
        }
    }

    /// Whether a region is this range.
    fn is_region(&self, first: u32, length: u32) -> bool
        ensures region { result ≡ true → IsRegionOf (region_at self.now.space.regions first) first length }
        ensures other { result ≡ false → IsRegionOf (region_at self.now.space.regions first) first length → ⊥ }
    {
        match self.space.region_at(first) {
            Some(region) => region.first == first && region.length == length,
            None => false,
        }
    }

    /// Whether the frames of this range may be wired, or be wired no longer: of a region that isn't wired by its kind, where they no longer are.
    fn may_pin(&self, first: u32, length: u32, wired: bool) -> bool
        ensures may { result ≡ true → MayPin (region_at self.now.space.regions first) first length wired }
        ensures may_not { result ≡ false → MayPin (region_at self.now.space.regions first) first length wired → ⊥ }
    {
        match self.space.region_at(first) {
            Some(region) => {
                region.first == first
                    && region.length == length
                    && (wired || region.kind != Kind::Wired)
            }
            None => false,
        }
    }

    /// Whether an access needs a frame for its page and has the right.
    fn is_needed(&self, need: Option<Need>) -> bool
        ensures needed { result ≡ true → IsNeeded (state_in (kept_of self.now)) need }
        ensures other { result ≡ false → IsNeeded (state_in (kept_of self.now)) need → ⊥ }
    {
        let Some(need) = need else {
            return false;
        };
        let Some(region) = self.space.region_at(need.page) else {
            return false;
        };
        has_right(need.writing, self.space.rights_in(need.page, region))
            && !self.is_resident(need.page)
    }

    /// Whether a fault's count is above all before it, or stands at its type's end.
    fn rises(&self, count: u64) -> bool
        ensures rises { result ≡ true → Rises self.now.highest count }
        ensures other { result ≡ false → Rises self.now.highest count → ⊥ }
    {
        self.highest < count || count == u64::MAX
    }
}
