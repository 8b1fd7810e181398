//! The regions of a space, kept in the order of their first pages.
//!
//! A region is found by halving. No call takes memory: the places of the 64 regions that a space may have lie in the
//! table itself.
#![tactic(auto)]

ghost use Rattle.std.specs.Prelude.{◌≡◌, ◌≢◌, ◌+◌, ◌<◌, ◌≤◌, ◌||◌, not, Some, [], length, nat_le, IfSome, IfOk, IfErr, OnOk, OnErr, MatchResult};
ghost use Rattle.std.specs.List.{list_any, position, prefix_len};
ghost use Rattle.pager_model.specs.Regions.{has_page, is_wired, is_wired_kind, meets_range, region_at, next_start, want_end, wanted, with_region, without_region, grown_regions, pinned_regions, map_reply, grow_reply, unmap_reply};
ghost use Rattle.pager_model.specs.PreferredSize.{IsWanted};
ghost use Rattle.region_table.specs.Table.{IsTable, region_of, pin_reply};
ghost use Rattle.pager_model.specs.Bounds.{space_pages};

use arrayvec::ArrayVec;
use pager_model::{Kind, PAGES, Region, Reply, Rights, Want};
use std::marker::Model;

/// The most regions that a space may have.
const MOST: usize = 64;

/// The regions of a space: at most 64, in the order of their first pages, no two with a common page.
#[derive(Drop)]
pub struct Regions {
    items: ArrayVec<Region, MOST>,
}

impl Model for Regions {
    ghost use Rattle.std.specs.Prelude.{List};
    ghost use Rattle.pager_model.specs.declared.region.Region.{Region as Item};
    ghost use Rattle.region_table.specs.Table.{IsTable};

    ghost Value = { List Item };

    ghost view = { λ r. r.items.items };

    ghost invariant = { λ r. IsTable r.items.items };
}

impl Regions {
    /// No region yet.
    pub fn create() -> Regions
        ensures { result ≡ [] }
    {
        Regions {
            items: ArrayVec::new(),
        }
    }

    /// Adds a region of `length` pages from `page` on.
    ///
    /// The first of these that holds is the refusal: `OutOfSpace` where it ends past the space's last page, `Overlap`
    /// where a region has one of its pages, `RegionsFull` where there are 64 regions.
    pub fn map(&mut self, page: u32, length: u32, kind: Kind, rights: Rights) -> Result<(), Reply>
        requires some { 1 ≤ length }
        requires in_space { page < space_pages }
        ensures reply { MatchResult result (λ _. map_reply self.old page length ≡ Reply.Done)
            (λ e. map_reply self.old page length ≡ e) }
        ensures refusal { IfErr result (λ e. e ≢ Reply.Done) }
        ensures after { OnOk result (self.new ≡ with_region (region_of page length kind rights) self.old) }
        ensures unchanged { OnErr result (self.new ≡ self.old) }
        ensures ordered { IsTable self.new }
    {
        let place = self.count_up_to(page);
        if length > PAGES - page {
            return Err(Reply::OutOfSpace);
        }
        if self.meets(page, length) {
            return Err(Reply::Overlap);
        }
        if self.items.is_full() {
            return Err(Reply::RegionsFull);
        }
        self.items.insert(
            place,
            Region {
                first: page,
                length,
                kind,
                rights,
                pinned: false,
            },
        );
        Ok(())
    }

    /// Makes the region that has `page` longer by `by` pages.
    ///
    /// The first of these that holds is the refusal: `Unmapped` where no region has the page, `NotGrowing` where the
    /// region doesn't grow, `OutOfSpace` where it would end past the space's last page, `Overlap` where the next region
    /// has one of the pages.
    pub fn grow(&mut self, page: u32, by: u32) -> Result<(), Reply>
        requires { 1 ≤ by }
        ensures reply { MatchResult result (λ _. grow_reply self.old page by ≡ Reply.Done)
            (λ e. grow_reply self.old page by ≡ e) }
        ensures refusal { IfErr result (λ e. e ≢ Reply.Done) }
        ensures after { OnOk result (self.new ≡ grown_regions page by self.old) }
        ensures unchanged { OnErr result (self.new ≡ self.old) }
        ensures ordered { IsTable self.new }
    {
        let Some(place) = self.position_of(page) else {
            return Err(Reply::Unmapped);
        };
        let region = self.items[place];
        if region.kind != Kind::Growing {
            return Err(Reply::NotGrowing);
        }
        let end = region.first + region.length;
        if by > PAGES - end {
            return Err(Reply::OutOfSpace);
        }
        if self.meets(end, by) {
            return Err(Reply::Overlap);
        }
        self.items[place].length += by;
        Ok(())
    }

    /// What a map of these pages would be answered.
    pub fn reply_to_map(&self, page: u32, length: u32) -> Reply
        requires some { 1 ≤ length }
        requires in_space { page < space_pages }
        ensures { result ≡ map_reply self.now page length }
    {
        if length > PAGES - page {
            return Reply::OutOfSpace;
        }
        if self.meets(page, length) {
            return Reply::Overlap;
        }
        if self.items.is_full() {
            return Reply::RegionsFull;
        }
        Reply::Done
    }

    /// What a growth of the region that has `page` would be answered.
    pub fn reply_to_grow(&self, page: u32, by: u32) -> Reply
        requires { 1 ≤ by }
        ensures { result ≡ grow_reply self.now page by }
    {
        let Some(place) = self.position_of(page) else {
            return Reply::Unmapped;
        };
        let region = self.items[place];
        if region.kind != Kind::Growing {
            return Reply::NotGrowing;
        }
        let end = region.first + region.length;
        if by > PAGES - end {
            return Reply::OutOfSpace;
        }
        if self.meets(end, by) {
            return Reply::Overlap;
        }
        Reply::Done
    }

    /// Takes away the region that has `page`, and gives it. `Unmapped` where no region has the page.
    pub fn unmap(&mut self, page: u32) -> Result<Region, Reply>
        ensures reply { MatchResult result (λ _. unmap_reply self.old page ≡ Reply.Done)
            (λ e. unmap_reply self.old page ≡ e) }
        ensures refusal { IfErr result (λ e. e ≡ Reply.Unmapped) }
        ensures region { IfOk result (λ r. region_at self.old page ≡ Some r) }
        ensures after { OnOk result (self.new ≡ without_region page self.old) }
        ensures unchanged { OnErr result (self.new ≡ self.old) }
        ensures ordered { IsTable self.new }
    {
        match self.position_of(page) {
            Some(place) => Ok(self.items.remove(place)),
            None => Err(Reply::Unmapped),
        }
    }

    /// Pins the region that has `page`, or leaves it pinned no longer, and gives it as it is then.
    ///
    /// The first of these that holds is the refusal: `Unmapped` where no region has the page, `Denied` where it is to be
    /// pinned no longer and is wired by its kind.
    pub fn pin(&mut self, page: u32, pinned: bool) -> Result<Region, Reply>
        ensures reply { MatchResult result (λ _. pin_reply pinned self.old page ≡ Reply.Done)
            (λ e. pin_reply pinned self.old page ≡ e) }
        ensures refusal { IfErr result (λ e. e ≢ Reply.Done) }
        ensures region { IfOk result (λ r. region_at self.new page ≡ Some r) }
        ensures after { OnOk result (self.new ≡ pinned_regions page pinned self.old) }
        ensures unchanged { OnErr result (self.new ≡ self.old) }
        ensures ordered { IsTable self.new }
    {
        let Some(place) = self.position_of(page) else {
            return Err(Reply::Unmapped);
        };
        let region = self.items[place];
        if !may_pin(&region, pinned) {
            return Err(Reply::Denied);
        }
        self.items[place].pinned = pinned;
        Ok(Region { pinned, ..region })
    }

    /// The region that has `page`, if one has it.
    pub fn find(&self, page: u32) -> Option<Region>
        ensures value { result ≡ region_at self.now page }
        ensures ordered { IsTable self.now }
    {
        let place = self.position_of(page)?;
        Some(self.items[place])
    }

    /// The first page of the next region above `page`, or 1,048,576 where none is above.
    pub fn next_start(&self, page: u32) -> u32
        ensures value { result ≡ next_start self.now page }
        ensures ordered { IsTable self.now }
    {
        match self.items.get(self.count_up_to(page)) {
            Some(next) => next.first,
            None => PAGES,
        }
    }

    /// Where a reservation for a page may lie, where a region has it: within the region, and up to the next one where it may grow.
    pub fn want_at(&self, page: u32) -> Option<Want>
        ensures want { result ≡ wanted self.now page }
        ensures for_page { IfSome result (λ want. IsWanted want page) }
    {
        let region = self.find(page)?;
        Some(want_in(&region, page, self.next_start(page)))
    }

    /// Whether a region has one of the pages.
    fn meets(&self, page: u32, length: u32) -> bool
        requires some { 1 ≤ length }
        requires in_space { page + length ≤ space_pages }
        ensures { result ≡ list_any (meets_range page length) self.now }
    {
        self.find(page).is_some() || self.next_start(page) < page + length
    }

    /// The place of the region that has `page`, if one has it: the last that begins there or below can be the only one.
    fn position_of(&self, page: u32) -> Option<usize>
        ensures value { result ≡ position (has_page page) self.now }
        ensures within { IfSome result (λ place. place < length self.now) }
        ensures ordered { IsTable self.now }
    {
        let place = self.count_up_to(page).checked_sub(1)?;
        let region = self.items[place];
        if page - region.first < region.length {
            Some(place)
        } else {
            None
        }
    }

    /// How many regions begin at `page` or below.
    fn count_up_to(&self, page: u32) -> usize
        ensures value { result ≡ prefix_len (λ r. nat_le r.first page) self.now }
        ensures within { result ≤ length self.now }
        ensures ordered { IsTable self.now }
    {
        self.items.partition_point(|region| region.first <= page)
    }
}

/// Whether the region may be pinned, or left pinned no longer.
fn may_pin(region: &Region, pinned: bool) -> bool
    ensures { result ≡ (pinned || not (is_wired_kind region.now.kind)) }
{
    pinned || region.kind != Kind::Wired
}

/// Where a reservation for a page of the region may lie, where the next region begins here.
fn want_in(region: &Region, page: u32, next: u32) -> Want
    requires has_first { region.now.first ≤ page }
    requires has_last { page < region.now.first + region.now.length }
    requires in_space { region.now.first + region.now.length ≤ space_pages }
    requires above { page < next }
    requires next_in_space { next ≤ space_pages }
    ensures want { result ≡ record {
      low = region.now.first;
      high = want_end region.now.kind region.now next;
      cap = region.now.length;
      wired = is_wired region.now;
    } }
    ensures for_page { IsWanted result page }
{
    let high = match region.kind {
        Kind::Growing => next,
        Kind::Fixed | Kind::Wired => region.first + region.length,
    };
    Want {
        low: region.first,
        high,
        cap: region.length,
        wired: region.is_wired(),
    }
}
