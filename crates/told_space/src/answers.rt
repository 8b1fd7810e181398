//! Which answers a space allows.

ghost use Rattle.std.specs.Prelude.{◌≡◌, ℕ, ◌<◌, length, true, false};
ghost use Rattle.pager_model.specs.declared.call.Call.TheVariants.{Unmap};
ghost use Rattle.pager_model.specs.Flat.{is_lawful, reply_of};
ghost use Rattle.pager_model.specs.Regions.{discard_reply, region_at};
ghost use Rattle.pager_model.specs.SpaceStates.{SpaceState, HasItsPages, IsPinnedAt, LacksItsPage, MayFail, NoneResident, ReplyAllowed, access_page, frees_its_page, is_hit};
ghost use Rattle.pager_model.specs.TraceText.{IsCall};
ghost use Rattle.tiles.specs.Resident.{frame_of_page};
ghost use Rattle.told_space.specs.Told.{AllowsReply, Stands, flat_in, kept_of, state_in};

use crate::calls::{access_page, is_lawful, is_within, served_page};
use crate::next::Next;
use crate::space::ToldSpace;
use pager_model::{Answered, Call, Reply, page_of};

impl ToldSpace {
    /// Whether it is an access whose page isn't resident.
    fn lacks_its_page(&self, call: &Call) -> bool
        requires { (spaces : ℕ) × IsCall spaces call.now }
        ensures lacks { result ≡ true → LacksItsPage (frame_of_page self.now.space.pages) (access_page call.now) }
        ensures other { result ≡ false → LacksItsPage (frame_of_page self.now.space.pages) (access_page call.now) → ⊥ }
    {
        match access_page(call) {
            Some(page) => !self.is_resident(page),
            None => false,
        }
    }

    /// Whether a store's fault, or want of memory, may come to a call.
    fn may_fail(&self, call: &Call) -> bool
        requires { (spaces : ℕ) × IsCall spaces call.now }
        ensures may { result ≡ true → MayFail (state_in (kept_of self.now)) call.now }
        ensures may_not { result ≡ false → MayFail (state_in (kept_of self.now)) call.now → ⊥ }
    {
        match call {
            Call::Load { .. } | Call::Store { .. } => true,
            Call::Sync { .. } | Call::Evict { .. } => self.reply_to(call) == Reply::Written,
            _ => false,
        }
    }

    /// Whether the region of a page was cleared by the processor just before, and no page of it is resident.
    fn is_cleared(&self, processor: u32, page: u32) -> bool
        ensures cleared { result ≡ true → HasItsPages (state_in (kept_of self.now)) processor (Unmap 0 page) }
        ensures other { result ≡ false → HasItsPages (state_in (kept_of self.now)) processor (Unmap 0 page) → ⊥ }
    {
        let Some(region) = self.space.region_at(page) else {
            return false;
        };
        let Next::AfterClear {
            processor: own,
            first,
            length,
        } = self.next
        else {
            return false;
        };
        own == processor
            && first == region.first
            && length == region.length
            && self.space.is_empty_in(first, length)
    }

    /// Whether the region of a page was pinned so by the processor just before.
    fn is_pinned(&self, processor: u32, page: u32, wired: bool) -> bool
        ensures pinned { result ≡ true → IsPinnedAt (state_in (kept_of self.now)) processor wired (region_at self.now.space.regions page) }
        ensures other { result ≡ false → IsPinnedAt (state_in (kept_of self.now)) processor wired (region_at self.now.space.regions page) → ⊥ }
    {
        let Some(region) = self.space.region_at(page) else {
            return false;
        };
        let Next::AfterPin {
            processor: own,
            first,
            length,
            wired: pinned,
        } = self.next
        else {
            return false;
        };
        own == processor && first == region.first && length == region.length && pinned == wired
    }

    /// Whether no page of a discarded range is resident.
    fn is_emptied(&self, page: u32, length: u32) -> bool
        requires { is_lawful (discard_reply self.now.space.regions page length) ≡ true }
        ensures empty { result ≡ true → NoneResident (frame_of_page self.now.space.pages) page length }
        ensures other { result ≡ false → NoneResident (frame_of_page self.now.space.pages) page length → ⊥ }
    {
        match self.space.region_at(page) {
            Some(region) if is_within(page, length, region) => {
                self.space.is_empty_in(page, length)
            }
            _ => false,
        }
    }

    /// Whether what a call finds that is answered lawfully stands.
    fn has_its_pages(&self, processor: u32, call: &Call) -> bool
        requires line { (spaces : ℕ) × IsCall spaces call.now }
        requires lawful { is_lawful (reply_of (flat_in (kept_of self.now)) call.now) ≡ true }
        ensures has { result ≡ true → HasItsPages (state_in (kept_of self.now)) processor call.now }
        ensures other { result ≡ false → HasItsPages (state_in (kept_of self.now)) processor call.now → ⊥ }
    {
        match *call {
            Call::Load { address, .. } => self.is_resident(page_of(address)),
            Call::Store { address, .. } => self.is_resident(page_of(address)),
            Call::Unmap { page, .. } => self.is_cleared(processor, page),
            Call::Discard { page, length, .. } => self.is_emptied(page, length),
            Call::Wire { page, .. } => self.is_pinned(processor, page, true),
            Call::Unwire { page, .. } => self.is_pinned(processor, page, false),
            _ => true,
        }
    }

    /// Whether a reply of the processor's call is allowed.
    fn allows_reply(&self, processor: u32, call: &Call, reply: Reply) -> bool
        requires { (spaces : ℕ) × IsCall spaces call.now }
        ensures allows { result ≡ true → ReplyAllowed (state_in (kept_of self.now)) processor call.now reply }
        ensures refuses { result ≡ false → ReplyAllowed (state_in (kept_of self.now)) processor call.now reply → ⊥ }
    {
        match reply {
            Reply::NoFrames { .. } => {
                is_lawful(self.reply_to(call)) && self.lacks_its_page(call)
            }
            Reply::StoreFault { .. } | Reply::NoMemory => self.may_fail(call),
            // which page kept a wire from being done is for the processor's order to say
            Reply::Busy { .. } => true,
            _ => {
                self.reply_to(call) == reply
                    && (!is_lawful(reply) || self.has_its_pages(processor, call))
            }
        }
    }

    /// Whether an answer gives its page's frame up.
    fn frees_its_page(&self, call: &Call, reply: Reply) -> bool
        ensures { result ≡ frees_its_page (state_in (kept_of self.now)) call.now reply }
    {
        match *call {
            Call::Evict { page, .. } => is_lawful(reply) && self.is_resident(page),
            _ => false,
        }
    }

    /// Whether an access of the processor is a hit.
    fn is_hit(&self, processor: u32, call: &Call, reply: Reply) -> bool
        requires line { (spaces : ℕ) × IsCall spaces call.now }
        requires known { processor < length self.now.images }
        requires stands { (st : SpaceState) × Stands (kept_of self.now) st }
        ensures { result ≡ is_hit (state_in (kept_of self.now)) processor call.now reply }
    {
        match served_page(call, reply) {
            Some(page) => self
                .images
                .has(processor, self.space.tile_of(page, self.sizes)),
            None => false,
        }
    }

    /// Whether an answer of the processor is allowed, but for its size.
    pub(crate) fn allows_answer(
        &self,
        processor: u32,
        frames: bool,
        call: &Call,
        answered: &Answered,
    ) -> bool
        requires line { (spaces : ℕ) × IsCall spaces call.now }
        requires known { processor < length self.now.images }
        requires stands { (st : SpaceState) × Stands (kept_of self.now) st }
        ensures allows { result ≡ true → AllowsReply (state_in (kept_of self.now)) frames processor call.now answered.now }
        ensures refuses { result ≡ false → AllowsReply (state_in (kept_of self.now)) frames processor call.now answered.now → ⊥ }
    {
        self.allows_reply(processor, call, answered.reply)
            && frames == self.frees_its_page(call, answered.reply)
            && answered.hit == self.is_hit(processor, call, answered.reply)
    }
}
