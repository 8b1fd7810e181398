//! A space whose entries are followed.

ghost use Rattle.std.specs.Prelude.{◌≡◌, ℕ, ◌+◌, ◌/◌, ◌<◌, ◌≤◌, Bool, true, false, Some, None, IfOk, IfSome, IfNone, option_map};
ghost use Rattle.pager_model.specs.declared.call.Call.TheVariants.{Map, Grow, Unmap, Protect, Store, Sync, Evict, Discard, Wire, Unwire};
ghost use Rattle.pager_model.specs.declared.entry.Entry.{Entry as Item};
ghost use Rattle.pager_model.specs.declared.entry.What.TheVariants.{Out, Give, Clear};
ghost use Rattle.pager_model.specs.Bounds.{most_frames, space_bytes, space_pages};
ghost use Rattle.pager_model.specs.Regions.{in_range, rights_by, region_at, wanted, map_reply, grow_reply};
ghost use Rattle.pager_model.specs.PreferredSize.{IsWanted};
ghost use Rattle.pager_model.specs.SizeSets.{SizeSet};
ghost use Rattle.pager_model.specs.SpaceStates.{SpaceState, empty_state, space_after};
ghost use Rattle.pager_model.specs.Tiles.{tile_in, is_tile_in};
ghost use Rattle.page_rights.specs.Rights.{rights_of};
ghost use Rattle.tiles.specs.Cleared.{Clears};
ghost use Rattle.tiles.specs.Resident.{frames_in, mapping_at, with_flag, IsNextResident, NoneResident};
ghost use Rattle.tiles.specs.Touched.{IsInSpace, is_touched};
ghost use Rattle.followed_space.specs.Changed.{IsChange};
ghost use Rattle.followed_space.specs.Follows.{AnswersBy, Follows, IsNext, MapsOne, Serves, filled, rights_at};

use crate::changed::Changed;
use crate::reply::is_lawful;
use page_rights::PageRights;
use pager_model::{
    Call, Entry, Kind, LARGEST, Mapping, NoMemory, PageRange, Region, Reply, Rights, Sizes, Tile,
    Want, What, page_of,
};
use region_table::Regions;
use std::alloc::Global;
use std::marker::{Brand, Model};
use std::sync::ledger::Blank;
use tiles::Base;
use tiles::counted::{after_dirty, after_fill, after_remove, after_rights};

/// The regions of a space, the rights of its pages and its resident pages with their tiles.
#[derive(Drop)]
pub struct FollowedSpace {
    regions: Regions,
    /// The rights that a protect gave pages.
    own: PageRights,
    pages: Base,
}

impl Model for FollowedSpace {
    ghost use Rattle.followed_space.specs.Follows.{Followed, AreOwned};

    ghost Value = { Followed };

    ghost view = { λ s. record { regions = s.regions; own = s.own; pages = s.pages } };

    ghost invariant = { λ s. AreOwned s.regions s.own };
}

impl FollowedSpace {
    /// A space before its first entry, and room for its pages in so many frames.
    pub fn create(alloc: Global, frames: u32) -> Result<FollowedSpace, NoMemory>
        requires { frames ≤ most_frames }
        ensures frames { IfOk result (λ s. frames_in s.pages ≡ frames) }
        ensures follows { IfOk result (λ s. (sizes : SizeSet) (told : Bool) (faults : ℕ) → Follows s (empty_state sizes told faults)) }
    {
        Ok(FollowedSpace {
            regions: Regions::create(),
            own: PageRights::create(alloc)?,
            pages: Base::create(alloc, frames)?,
        })
    }

    /// The tile of a page by some sizes, where it is resident.
    pub fn tile_of(&self, page: u32, sizes: Sizes) -> Option<Tile>
        ensures { result ≡ tile_in sizes (mapping_at self.now.pages) page }
    {
        self.pages.tile_of(page, sizes)
    }

    /// Whether it is a tile of the pages as they are, by some sizes.
    pub fn is_tile(&self, tile: &Tile, sizes: Sizes) -> bool
        ensures { result ≡ is_tile_in sizes (mapping_at self.now.pages) tile.now }
    {
        self.pages.is_tile(tile, sizes)
    }

    /// The region of a page, where it has one.
    pub fn region_at(&self, page: u32) -> Option<Region>
        ensures value { result ≡ region_at self.now.regions page }
        ensures in_space { IfSome result (λ _. page < space_pages) }
        ensures ends { IfSome result (λ r. r.first + r.length ≤ space_pages) }
    {
        let region = self.regions.find(page)?;
        Some(region)
    }

    /// What is said of a page, where it is resident.
    pub fn mapping(&self, page: u32) -> Option<Mapping>
        ensures { result ≡ mapping_at self.now.pages page }
    {
        self.pages.mapping(page)
    }

    /// The rights of a page of this region.
    pub fn rights_in(&self, page: u32, region: Region) -> Rights
        requires region { region_at self.now.regions page ≡ Some region }
        requires page { page < space_pages }
        ensures { result ≡ rights_at self.now page }
    {
        self.rights(page, region)
    }

    /// What the region of a page wants of a frame for it, where it has one.
    pub fn want_at(&self, page: u32) -> Option<Want>
        ensures want { result ≡ wanted self.now.regions page }
        ensures for_page { IfSome result (λ want. IsWanted want page) }
    {
        self.regions.want_at(page)
    }

    /// The first resident page of a range.
    pub fn next_resident(&self, from: u32, end: u32) -> Option<u32>
        requires { end ≤ space_pages }
        ensures some { IfSome result (IsNextResident (mapping_at self.now.pages) from end) }
        ensures none { IfNone result (NoneResident (mapping_at self.now.pages) from end) }
    {
        self.pages.next_resident(from, end)
    }

    /// Whether no page of a range is resident.
    pub fn is_empty_in(&self, first: u32, length: u32) -> bool
        requires { first + length ≤ space_pages }
        ensures empty { result ≡ true → NoneResident (mapping_at self.now.pages) first (first + length) }
        ensures some { result ≡ false → NoneResident (mapping_at self.now.pages) first (first + length) → ⊥ }
    {
        self.next_resident(first, first + length).is_none()
    }

    /// What a map of these pages would be answered.
    pub fn reply_to_map(&self, page: u32, length: u32) -> Reply
        requires some { 1 ≤ length }
        requires in_space { page < space_pages }
        ensures { result ≡ map_reply self.now.regions page length }
    {
        self.regions.reply_to_map(page, length)
    }

    /// What a growth of the region that has the page would be answered.
    pub fn reply_to_grow(&self, page: u32, by: u32) -> Reply
        requires { 1 ≤ by }
        ensures { result ≡ grow_reply self.now.regions page by }
    {
        self.regions.reply_to_grow(page, by)
    }

    /// A page got this frame, which no other page has.
    fn fill(&mut self, page: u32, frame: u32) -> Changed
        requires next { (st : SpaceState) × (e : Item) × (filled e.what ≡ Some (page, frame)) × IsNext self.old st e }
        ensures frames { frames_in self.new.pages ≡ frames_in self.old.pages }
        ensures follows { (st : SpaceState) (e : Item) → filled e.what ≡ Some (page, frame) → IsNext self.old st e
            → Follows self.new (space_after st e) }
        ensures changed { IsChange self.old.pages self.new.pages result }
    {
        let Some(region) = self.regions.find(page) else {
            unreachable!()
        };
        let rights = self.rights(page, region);
        let mapping = Mapping {
            frame,
            region: region.first,
            rights,
            dirty: false,
        };
        let changes = after_fill::<Brand>(&mut self.pages, page, mapping, Blank::new(1));
        Changed::Page { page, changes }
    }

    /// The rights of a page of a region: its own, or else the region's first.
    fn rights(&self, page: u32, region: Region) -> Rights
        requires { page < space_pages }
        ensures { result ≡ rights_by (rights_of self.now.own page) (Some region) }
    {
        self.own.get(page).unwrap_or(region.rights)
    }

    /// A page is resident no more.
    fn remove(&mut self, page: u32) -> Changed
        ensures after { MapsOne page None self.old self.new }
        ensures changed { IsChange self.old.pages self.new.pages result }
    {
        if self.pages.mapping(page).is_none() {
            return Changed::Nothing;
        }
        let changes = after_remove::<Brand>(&mut self.pages, page, Blank::new(1));
        Changed::Page { page, changes }
    }

    /// A page has this dirty flag, where it is resident.
    fn mark(&mut self, page: u32, dirty: bool) -> Changed
        ensures after { MapsOne page (option_map (with_flag dirty) (mapping_at self.old.pages page)) self.old self.new }
        ensures changed { IsChange self.old.pages self.new.pages result }
    {
        match self.pages.mapping(page) {
            Some(mapping) if mapping.dirty != dirty => {
                let changes = after_dirty::<Brand>(&mut self.pages, page, dirty, Blank::new(1));
                Changed::Page { page, changes }
            }
            _ => Changed::Nothing,
        }
    }

    /// A page gave its frame up.
    fn give(&mut self, page: u32) -> Changed
        ensures frames { frames_in self.new.pages ≡ frames_in self.old.pages }
        ensures follows { (st : SpaceState) (e : Item) (frame : ℕ) → e.what ≡ Give page frame → IsNext self.old st e
            → Follows self.new (space_after st e) }
        ensures changed { IsChange self.old.pages self.new.pages result }
    {
        self.remove(page)
    }

    /// A page was made equal to its copy.
    fn page_out(&mut self, page: u32) -> Changed
        ensures frames { frames_in self.new.pages ≡ frames_in self.old.pages }
        ensures follows { (st : SpaceState) (e : Item) (written : Bool) → e.what ≡ Out page written → IsNext self.old st e
            → Follows self.new (space_after st e) }
        ensures changed { IsChange self.old.pages self.new.pages result }
    {
        self.mark(page, false)
    }

    /// A store to a page was done.
    fn store(&mut self, address: u64) -> Changed
        requires { address < space_bytes }
        ensures frames { frames_in self.new.pages ≡ frames_in self.old.pages }
        ensures follows { (st : SpaceState) (e : Item) (space word : ℕ) → Serves e (Store space address word) → IsNext self.old st e
            → Follows self.new (space_after st e) }
        ensures changed { IsChange self.old.pages self.new.pages result }
    {
        self.mark(page_of(address), true)
    }

    /// A page's copy was written where it was dirty.
    fn sync(&mut self, page: u32) -> Changed
        ensures frames { frames_in self.new.pages ≡ frames_in self.old.pages }
        ensures follows { (st : SpaceState) (e : Item) (space : ℕ) → Serves e (Sync space page) → IsNext self.old st e
            → Follows self.new (space_after st e) }
        ensures changed { IsChange self.old.pages self.new.pages result }
    {
        self.mark(page, false)
    }

    /// A page was evicted.
    fn evict(&mut self, page: u32) -> Changed
        ensures frames { frames_in self.new.pages ≡ frames_in self.old.pages }
        ensures follows { (st : SpaceState) (e : Item) (space : ℕ) → Serves e (Evict space page) → IsNext self.old st e
            → Follows self.new (space_after st e) }
        ensures changed { IsChange self.old.pages self.new.pages result }
    {
        self.remove(page)
    }

    /// A region was mapped.
    fn map(&mut self, page: u32, length: u32, kind: Kind, rights: Rights)
        requires next { (st : SpaceState) × (e : Item) × (space : ℕ) × Serves e (Map space page length kind rights) × IsNext self.old st e }
        ensures pages { self.new.pages ≡ self.old.pages }
        ensures follows { (st : SpaceState) (e : Item) (space : ℕ) → Serves e (Map space page length kind rights) → IsNext self.old st e
            → Follows self.new (space_after st e) }
    {
        let Ok(()) = self.regions.map(page, length, kind, rights) else {
            unreachable!()
        };
    }

    /// A region grew.
    fn grow(&mut self, page: u32, by: u32)
        requires next { (st : SpaceState) × (e : Item) × (space : ℕ) × Serves e (Grow space page by) × IsNext self.old st e }
        ensures pages { self.new.pages ≡ self.old.pages }
        ensures follows { (st : SpaceState) (e : Item) (space : ℕ) → Serves e (Grow space page by) → IsNext self.old st e
            → Follows self.new (space_after st e) }
    {
        let Ok(()) = self.regions.grow(page, by) else {
            unreachable!()
        };
    }

    /// A region went, after its pages gave their frames up.
    fn unmap(&mut self, page: u32)
        requires next { (st : SpaceState) × (e : Item) × (space : ℕ) × Serves e (Unmap space page) × IsNext self.old st e }
        ensures pages { self.new.pages ≡ self.old.pages }
        ensures follows { (st : SpaceState) (e : Item) (space : ℕ) → Serves e (Unmap space page) → IsNext self.old st e
            → Follows self.new (space_after st e) }
    {
        let Ok(region) = self.regions.unmap(page) else {
            unreachable!()
        };
        self.own.set(region.first, region.length, None);
    }

    /// A region was pinned: its pages are as they were.
    fn wire(&mut self, page: u32)
        requires next { (st : SpaceState) × (e : Item) × (space : ℕ) × Serves e (Wire space page) × IsNext self.old st e }
        ensures pages { self.new.pages ≡ self.old.pages }
        ensures follows { (st : SpaceState) (e : Item) (space : ℕ) → Serves e (Wire space page) → IsNext self.old st e
            → Follows self.new (space_after st e) }
    {
        let Ok(_) = self.regions.pin(page, true) else {
            unreachable!()
        };
    }

    /// A region is pinned no longer.
    fn unwire(&mut self, page: u32)
        requires next { (st : SpaceState) × (e : Item) × (space : ℕ) × Serves e (Unwire space page) × IsNext self.old st e }
        ensures pages { self.new.pages ≡ self.old.pages }
        ensures follows { (st : SpaceState) (e : Item) (space : ℕ) → Serves e (Unwire space page) → IsNext self.old st e
            → Follows self.new (space_after st e) }
    {
        let Ok(_) = self.regions.pin(page, false) else {
            unreachable!()
        };
    }

    /// The pages of a range got these rights.
    fn protect(&mut self, page: u32, length: u32, rights: Rights) -> Changed
        requires next { (st : SpaceState) × (e : Item) × (space : ℕ) × Serves e (Protect space page length rights) × IsNext self.old st e }
        ensures frames { frames_in self.new.pages ≡ frames_in self.old.pages }
        ensures follows { (st : SpaceState) (e : Item) (space : ℕ) → Serves e (Protect space page length rights) → IsNext self.old st e
            → Follows self.new (space_after st e) }
        ensures changed { IsChange self.old.pages self.new.pages result }
    {
        self.own.set(page, length, Some(rights));
        after_rights::<Brand>(
            &mut self.pages,
            page,
            length,
            rights,
            Sizes::all(),
            Blank::new(1),
        );
        Changed::Range(blocks_round(page, length))
    }

    /// The pages of a range gave their frames up.
    fn clear(&mut self, first: u32, length: u32) -> Changed
        requires next { (st : SpaceState) × (e : Item) × (e.what ≡ Clear first length) × IsNext self.old st e }
        ensures frames { frames_in self.new.pages ≡ frames_in self.old.pages }
        ensures follows { (st : SpaceState) (e : Item) → e.what ≡ Clear first length → IsNext self.old st e → Follows self.new (space_after st e) }
        ensures changed { IsChange self.old.pages self.new.pages result }
    {
        remove_all(&mut self.pages, first, length);
        Changed::Range(blocks_round(first, length))
    }

    /// Does to the pages what a call did that was answered.
    fn serve(&mut self, call: &Call) -> Changed
        requires next { (st : SpaceState) × (e : Item) × Serves e call.now × IsNext self.old st e }
        ensures frames { frames_in self.new.pages ≡ frames_in self.old.pages }
        ensures follows { (st : SpaceState) (e : Item) → Serves e call.now → IsNext self.old st e → Follows self.new (space_after st e) }
        ensures changed { IsChange self.old.pages self.new.pages result }
    {
        match *call {
            Call::Map {
                page,
                length,
                kind,
                rights,
                ..
            } => {
                self.map(page, length, kind, rights);
                Changed::Nothing
            }
            Call::Grow { page, by, .. } => {
                self.grow(page, by);
                Changed::Nothing
            }
            Call::Unmap { page, .. } => {
                self.unmap(page);
                Changed::Nothing
            }
            Call::Protect {
                page,
                length,
                rights,
                ..
            } => self.protect(page, length, rights),
            Call::Load { .. } => Changed::Nothing,
            Call::Store { address, .. } => self.store(address),
            Call::Sync { page, .. } => self.sync(page),
            Call::Evict { page, .. } => self.evict(page),
            // the range's pages gave their frames up before
            Call::Discard { .. } => Changed::Nothing,
            Call::Wire { page, .. } => {
                self.wire(page);
                Changed::Nothing
            }
            Call::Unwire { page, .. } => {
                self.unwire(page);
                Changed::Nothing
            }
        }
    }

    /// A call was answered. A refusal changes nothing, nor does an answer for want of a frame, of a store or of memory.
    pub fn answer(&mut self, call: &Call, reply: Reply) -> Changed
        requires next { (st : SpaceState) × (e : Item) × AnswersBy e call.now reply × IsNext self.old st e }
        ensures frames { frames_in self.new.pages ≡ frames_in self.old.pages }
        ensures follows { (st : SpaceState) (e : Item) → AnswersBy e call.now reply → IsNext self.old st e → Follows self.new (space_after st e) }
        ensures changed { IsChange self.old.pages self.new.pages result }
    {
        if is_lawful(reply) {
            self.serve(call)
        } else {
            Changed::Nothing
        }
    }

    /// Follows the next entry of the space.
    pub fn follow(&mut self, entry: &Entry) -> Changed
        requires next { (st : SpaceState) × IsNext self.old st entry.now }
        ensures frames { frames_in self.new.pages ≡ frames_in self.old.pages }
        ensures follows { (st : SpaceState) → IsNext self.old st entry.now → Follows self.new (space_after st entry.now) }
        ensures changed { IsChange self.old.pages self.new.pages result }
    {
        match entry.what {
            What::Answer { call, answered, .. } => self.answer(&call, answered.reply),
            What::Out { page, .. } => self.page_out(page),
            What::Take { page, frame, .. } => self.fill(page, frame),
            What::UseHeld { page, frame, .. } => self.fill(page, frame),
            What::Give { page, .. } => self.give(page),
            What::Clear { first, length } => self.clear(first, length),
            What::Failed { .. }
            | What::Claim { .. }
            | What::DropHeld { .. }
            | What::Got { .. }
            | What::Unclaim { .. }
            | What::Refused { .. }
            | What::Rest { .. }
            | What::Pin { .. }
            | What::Kept { .. } => Changed::Nothing,
        }
    }
}

/// No page of a range is resident any more.
fn remove_all(pages: &mut Base, first: u32, length: u32)
    requires { first + length ≤ space_pages }
    ensures frames { frames_in pages.new ≡ frames_in pages.old }
    ensures clears { Clears first length (mapping_at pages.old) (mapping_at pages.new) }
{
    let mut from = first;
    while let Some(page) = pages.next_resident(from, first + length) {
        after_remove::<Brand>(pages, page, Blank::new(1));
        from = page + 1;
    }
}

/// The blocks of 512 pages that have a page of a range.
fn blocks_round(first: u32, length: u32) -> PageRange
    requires { first + length ≤ space_pages }
    ensures in_space { IsInSpace result }
    ensures round { (p q : ℕ) → in_range first length p ≡ true → q / 512 ≡ p / 512 → is_touched result q ≡ true }
{
    let from = first / LARGEST * LARGEST;
    let end = (first + length).div_ceil(LARGEST) * LARGEST;
    PageRange {
        first: from,
        length: end - from,
    }
}
