//! Looks at what is kept of a space.

ghost use Rattle.std.specs.Prelude.{◌≡◌, ℕ, is_some, if◌then◌else◌};
ghost use Rattle.pager_model.specs.Flat.{access_reply, reply_of};
ghost use Rattle.pager_model.specs.Regions.{discard_reply, region_at, unwire_reply, wire_reply};
ghost use Rattle.pager_model.specs.SpaceStates.{has_right};
ghost use Rattle.pager_model.specs.TraceText.{IsCall};
ghost use Rattle.followed_space.specs.Follows.{rights_at};
ghost use Rattle.tiles.specs.Resident.{frame_of_page};
ghost use Rattle.told_space.specs.Told.{flat_in, kept_of};

use crate::calls::{has_right, is_within};
use crate::space::ToldSpace;
use crate::words::word_at;
use pager_model::{Call, Kind, Reply, page_of};

impl ToldSpace {
    /// Whether a page is dirty, and resident.
    pub(crate) fn is_dirty(&self, page: u32) -> bool
        ensures { result ≡ (flat_in (kept_of self.now)).dirty page }
    {
        match self.space.mapping(page) {
            Some(mapping) => mapping.dirty,
            None => false,
        }
    }

    /// Whether a page is resident.
    pub(crate) fn is_resident(&self, page: u32) -> bool
        ensures { result ≡ is_some (frame_of_page self.now.space.pages page) }
    {
        self.space.mapping(page).is_some()
    }

    /// What an access to a page is answered that is this where it is allowed.
    fn reply_to_access(&self, page: u32, writing: bool, reply: Reply) -> Reply
        ensures { result ≡ access_reply (region_at self.now.space.regions page) (has_right writing (rights_at self.now.space page)) reply }
    {
        let Some(region) = self.space.region_at(page) else {
            return Reply::Unmapped;
        };
        if has_right(writing, self.space.rights_in(page, region)) {
            reply
        } else {
            Reply::Denied
        }
    }

    /// What a copy of a page is answered.
    fn copied(&self, page: u32) -> Reply
        ensures { result ≡ (if (flat_in (kept_of self.now)).dirty page then Reply.Written else Reply.Clean) }
    {
        if self.is_dirty(page) {
            Reply::Written
        } else {
            Reply::Clean
        }
    }

    /// What a call that needs no more than the page's region is answered.
    fn reply_in_region(&self, page: u32) -> Reply
        ensures { result ≡ wire_reply self.now.space.regions page }
    {
        match self.space.region_at(page) {
            Some(_) => Reply::Done,
            None => Reply::Unmapped,
        }
    }

    /// What an unwire of the page's region is answered.
    fn reply_to_unwire(&self, page: u32) -> Reply
        ensures { result ≡ unwire_reply self.now.space.regions page }
    {
        match self.space.region_at(page) {
            Some(region) if region.kind == Kind::Wired => Reply::Denied,
            Some(_) => Reply::Done,
            None => Reply::Unmapped,
        }
    }

    /// What a discard of these pages is answered.
    fn reply_to_discard(&self, page: u32, length: u32) -> Reply
        ensures { result ≡ discard_reply self.now.space.regions page length }
    {
        match self.space.region_at(page) {
            Some(region) if !is_within(page, length, region) => Reply::Unmapped,
            Some(region) if region.is_wired() => Reply::Denied,
            Some(_) => Reply::Done,
            None => Reply::Unmapped,
        }
    }

    /// What the flat memory answers a call.
    pub(crate) fn reply_to(&self, call: &Call) -> Reply
        requires { (spaces : ℕ) × IsCall spaces call.now }
        ensures { result ≡ reply_of (flat_in (kept_of self.now)) call.now }
    {
        match *call {
            Call::Map { page, length, .. } => self.space.reply_to_map(page, length),
            Call::Grow { page, by, .. } => self.space.reply_to_grow(page, by),
            Call::Unmap { page, .. } => self.reply_in_region(page),
            Call::Protect { page, length, .. } => match self.space.region_at(page) {
                Some(region) if is_within(page, length, region) => Reply::Done,
                _ => Reply::Unmapped,
            },
            Call::Load { address, .. } => {
                let word = word_at(&self.words, address);
                self.reply_to_access(page_of(address), false, Reply::Value(word))
            }
            Call::Store { address, .. } => {
                self.reply_to_access(page_of(address), true, Reply::Done)
            }
            Call::Sync { page, .. } => match self.space.region_at(page) {
                Some(_) => self.copied(page),
                None => Reply::Unmapped,
            },
            Call::Evict { page, .. } => match self.space.region_at(page) {
                Some(region) if region.is_wired() => Reply::Denied,
                Some(_) => self.copied(page),
                None => Reply::Unmapped,
            },
            Call::Discard { page, length, .. } => self.reply_to_discard(page, length),
            Call::Wire { page, .. } => self.reply_in_region(page),
            Call::Unwire { page, .. } => self.reply_to_unwire(page),
        }
    }
}
