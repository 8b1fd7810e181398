//! The regions of a space, and the rights of its pages.

ghost use Rattle.std.specs.Prelude.{◌≡◌, ◌+◌, ◌<◌, ◌≤◌, [], IfErr, IfOk, OnOk, length};
ghost use Rattle.pager_model.specs.Bounds.{space_pages};
ghost use Rattle.lackey_regions.specs.LineCalls.{Adds};
ghost use Rattle.lackey_regions.specs.Refusals.{IsFull, Maps};
ghost use Rattle.lackey_regions.specs.RegionPlaces.{EndsBelow, GoesOn, HasPage};

use crate::added::add;
use crate::refusal::Refusal;
use crate::region::{Region, end_of_gap, first_of_gap, region_at, region_below};
use arrayvec::ArrayVec;
use pager_model::{Call, Kind, Line, PAGES, Rights};
use std::alloc::{AllocError, Global};

/// The most regions that a space has.
const MOST: usize = 64;

/// How many pages become a region round one that is accessed and that no region has.
const ROUND: u32 = 64;

/// The space of every call.
const SPACE: u32 = 0;

/// What happens to the pages of a range.
#[derive(Clone, Copy, Debug, PartialEq, Eq)]
pub enum Change {
    /// They are mapped with these rights.
    Map(Rights),
    /// They are mapped, with the wider of their old rights and these.
    MapWider(Rights),
    /// Those that regions have get these rights.
    Protect(Rights),
    /// Those that regions have get the wider of their old rights and these.
    ProtectWider(Rights),
    /// The regions that lie in the range as a whole are unmapped.
    Unmap,
    /// What regions have of the range is discarded.
    Discard,
}

/// The regions of a space, and the rights that each page has now, or none where no region has it.
#[derive(Drop)]
pub struct Regions {
    pages: Vec<Option<Rights>>,
    regions: ArrayVec<Region, MOST>,
    ghost whole: { length pages.items ≡ space_pages },
}

impl Regions {
    /// No region.
    pub fn new(alloc: Global) -> Result<Regions, AllocError> {
        Ok(Regions {
            pages: vec![in alloc; None; PAGES as usize]?,
            regions: ArrayVec::new(),
        })
    }

    /// Gives a page the rights that an access of it needs, and maps it where no region has it.
    #[tactic(auto, using(crate::proofs::AddedCalls::adds_none, crate::proofs::AddedCalls::adds_more))]
    pub fn touch(&mut self, page: u32, writes: bool, calls: &mut Vec<Line>) -> Result<(), Refusal>
        requires { page < space_pages }
        ensures adds { OnOk result (Adds calls.old.items calls.new.items []) }
        ensures full { IfErr result (IsFull self.new.regions.items) }
    {
        match self.pages[page as usize] {
            Some(Rights::Write) => Ok(()),
            Some(Rights::Read) if !writes => Ok(()),
            _ => self.allow(page, calls),
        }
    }

    /// Gives a page the right to write, and maps it where no region has it.
    fn allow(&mut self, page: u32, calls: &mut Vec<Line>) -> Result<(), Refusal>
        requires { page < space_pages }
        ensures adds { OnOk result (Adds calls.old.items calls.new.items []) }
        ensures full { IfErr result (IsFull self.new.regions.items) }
    {
        if region_at(self.regions.as_slice(), page).is_some() {
            return self.protect(page, page + 1, Rights::Write, calls);
        }
        let round = page / ROUND * ROUND;
        let first = first_of_gap(self.regions.as_slice(), page, round);
        let end = end_of_gap(self.regions.as_slice(), page, round + ROUND);
        self.open(first, end, Rights::Write, calls)
    }

    /// Changes the pages of a range, run by run.
    #[tactic(auto, using(crate::proofs::AddedCalls::adds_none, crate::proofs::AddedCalls::adds_more))]
    pub fn change(
        &mut self,
        change: Change,
        first: u32,
        end: u32,
        calls: &mut Vec<Line>,
    ) -> Result<(), Refusal>
        requires { end ≤ space_pages }
        ensures adds { OnOk result (Adds calls.old.items calls.new.items []) }
        ensures full { IfErr result (IsFull self.new.regions.items) }
        ensures maps { IfErr result (λ refusal. refusal ≡ Refusal.MoreRegions → Maps change) }
    {
        let mut at = first;
        while at < end {
            at = self.change_run(change, at, end, calls)?;
        }
        Ok(())
    }

    /// Changes the first run of pages of a range that all change alike, and answers where it ends.
    fn change_run(
        &mut self,
        change: Change,
        at: u32,
        end: u32,
        calls: &mut Vec<Line>,
    ) -> Result<u32, Refusal>
        requires some { at < end }
        requires within { end ≤ space_pages }
        ensures goes_on { IfOk result (GoesOn at end) }
        ensures adds { OnOk result (Adds calls.old.items calls.new.items []) }
        ensures full { IfErr result (IsFull self.new.regions.items) }
        ensures maps { IfErr result (λ refusal. refusal ≡ Refusal.MoreRegions → Maps change) }
    {
        match region_at(self.regions.as_slice(), at) {
            Some(place) => self.change_mapped(change, place, at, end, calls),
            None => self.change_gap(change, at, end, calls),
        }
    }

    /// Changes the first run of pages of a range that begins in a gap between regions.
    #[tactic(auto, using(crate::proofs::AddedCalls::adds_none, crate::proofs::AddedCalls::adds_more))]
    fn change_gap(
        &mut self,
        change: Change,
        at: u32,
        end: u32,
        calls: &mut Vec<Line>,
    ) -> Result<u32, Refusal>
        requires some { at < end }
        requires within { end ≤ space_pages }
        ensures goes_on { IfOk result (GoesOn at end) }
        ensures adds { OnOk result (Adds calls.old.items calls.new.items []) }
        ensures full { IfErr result (IsFull self.new.regions.items) }
        ensures maps { IfErr result (λ refusal. refusal ≡ Refusal.MoreRegions → Maps change) }
    {
        let gap_end = end_of_gap(self.regions.as_slice(), at, end);
        match change {
            Change::Map(rights) | Change::MapWider(rights) => {
                self.open(at, gap_end, rights, calls)?
            }
            _ => {}
        }
        Ok(gap_end)
    }

    /// Changes the first run of pages of a range that begins in this region.
    #[tactic(auto, using(crate::proofs::AddedCalls::adds_none, crate::proofs::AddedCalls::adds_more))]
    fn change_mapped(
        &mut self,
        change: Change,
        place: usize,
        at: u32,
        end: u32,
        calls: &mut Vec<Line>,
    ) -> Result<u32, Refusal>
        requires some { at < end }
        requires within { end ≤ space_pages }
        requires has { HasPage self.old.regions.items at place }
        ensures goes_on { IfOk result (GoesOn at end) }
        ensures adds { OnOk result (Adds calls.old.items calls.new.items []) }
        ensures full { IfErr result (IsFull self.new.regions.items) }
        ensures maps { IfErr result (λ refusal. refusal ≡ Refusal.MoreRegions → Maps change) }
    {
        let region = self.regions.as_slice()[place];
        let stop = end.min(region.end);
        match change {
            Change::Map(rights) | Change::Protect(rights) => {
                self.give(at, stop, rights, false, calls)
            }
            Change::MapWider(rights) | Change::ProtectWider(rights) => {
                self.give(at, stop, rights, true, calls)
            }
            Change::Unmap if region.first == at && region.end <= end => {
                self.unmap(place, at, stop, calls)?;
                Ok(stop)
            }
            Change::Unmap => Ok(stop),
            Change::Discard => {
                let length = stop - at;
                add(
                    calls,
                    Call::Discard {
                        space: SPACE,
                        page: at,
                        length,
                    },
                )?;
                Ok(stop)
            }
        }
    }

    /// Gives the pages of a range that begin alike these rights, or the wider of their old ones and these, and answers where the run ends.
    #[tactic(auto, using(crate::proofs::AddedCalls::adds_none, crate::proofs::AddedCalls::adds_more))]
    fn give(
        &mut self,
        at: u32,
        end: u32,
        rights: Rights,
        wider: bool,
        calls: &mut Vec<Line>,
    ) -> Result<u32, Refusal>
        requires some { at < end }
        requires within { end ≤ space_pages }
        ensures goes_on { IfOk result (GoesOn at end) }
        ensures adds { OnOk result (Adds calls.old.items calls.new.items []) }
        ensures full { IfErr result (IsFull self.new.regions.items) }
        ensures no_memory { IfErr result (λ refusal. refusal ≡ Refusal.NoMemory) }
    {
        let had = self.pages[at as usize];
        let stop = end_of_run(self.pages.as_slice(), at, end);
        let wanted = if wider { wider_of(had, rights) } else { rights };
        if had != Some(wanted) {
            self.protect(at, stop, wanted, calls)?;
        }
        Ok(stop)
    }

    /// Gives the pages of a range these rights.
    fn protect(
        &mut self,
        first: u32,
        end: u32,
        rights: Rights,
        calls: &mut Vec<Line>,
    ) -> Result<(), Refusal>
        requires some { first < end }
        requires within { end ≤ space_pages }
        ensures adds { OnOk result (Adds calls.old.items calls.new.items []) }
        ensures full { IfErr result (IsFull self.new.regions.items) }
        ensures no_memory { IfErr result (λ refusal. refusal ≡ Refusal.NoMemory) }
        ensures same { self.new.regions.items ≡ self.old.regions.items }
    {
        add(
            calls,
            Call::Protect {
                space: SPACE,
                page: first,
                length: end - first,
                rights,
            },
        )?;
        set(&mut self.pages, first, end, Some(rights));
        Ok(())
    }

    /// Makes pages that no region has those of a region.
    fn open(
        &mut self,
        first: u32,
        end: u32,
        rights: Rights,
        calls: &mut Vec<Line>,
    ) -> Result<(), Refusal>
        requires some { first < end }
        requires within { end ≤ space_pages }
        ensures adds { OnOk result (Adds calls.old.items calls.new.items []) }
        ensures full { IfErr result (IsFull self.new.regions.items) }
    {
        match region_below(self.regions.as_slice(), first) {
            Some(below) if self.regions.is_full() => self.grow(below, first, end, rights, calls),
            Some(below) if self.goes_on(below, first, rights) => {
                self.grow(below, first, end, rights, calls)
            }
            _ => self.map(first, end, rights, calls),
        }
    }

    /// Whether a region ends where a page begins, and has these rights.
    fn goes_on(&self, place: usize, page: u32, rights: Rights) -> bool
        requires { place < length self.now.regions.items }
    {
        let region = self.regions.as_slice()[place];
        region.end == page && region.rights == rights
    }

    /// Maps a region of pages that no region has.
    fn map(
        &mut self,
        first: u32,
        end: u32,
        rights: Rights,
        calls: &mut Vec<Line>,
    ) -> Result<(), Refusal>
        requires some { first < end }
        requires within { end ≤ space_pages }
        ensures adds { OnOk result (Adds calls.old.items calls.new.items []) }
        ensures full { IfErr result (IsFull self.new.regions.items) }
    {
        if self.regions.is_full() {
            return Err(Refusal::MoreRegions);
        }
        add(
            calls,
            Call::Map {
                space: SPACE,
                page: first,
                length: end - first,
                kind: Kind::Growing,
                rights,
            },
        )?;
        self.regions.push(Region { first, end, rights });
        set(&mut self.pages, first, end, Some(rights));
        Ok(())
    }

    /// Grows a region below over the gap and pages that no region has, and gives these pages their rights.
    #[tactic(auto, using(crate::proofs::AddedCalls::adds_none, crate::proofs::AddedCalls::adds_more))]
    fn grow(
        &mut self,
        place: usize,
        first: u32,
        end: u32,
        rights: Rights,
        calls: &mut Vec<Line>,
    ) -> Result<(), Refusal>
        requires some { first < end }
        requires within { end ≤ space_pages }
        requires below { EndsBelow self.old.regions.items first place }
        ensures adds { OnOk result (Adds calls.old.items calls.new.items []) }
        ensures full { IfErr result (IsFull self.new.regions.items) }
    {
        let region = self.regions.as_slice()[place];
        add(
            calls,
            Call::Grow {
                space: SPACE,
                page: region.first,
                by: end - region.end,
            },
        )?;
        self.regions.as_mut_slice()[place].end = end;
        set(&mut self.pages, region.end, end, Some(region.rights));
        if region.rights != rights {
            self.protect(first, end, rights, calls)?;
        }
        Ok(())
    }

    /// Unmaps a region.
    fn unmap(
        &mut self,
        place: usize,
        first: u32,
        end: u32,
        calls: &mut Vec<Line>,
    ) -> Result<(), Refusal>
        requires some { first < end }
        requires within { end ≤ space_pages }
        requires there { place < length self.old.regions.items }
        ensures adds { OnOk result (Adds calls.old.items calls.new.items []) }
        ensures full { IfErr result (IsFull self.new.regions.items) }
        ensures no_memory { IfErr result (λ refusal. refusal ≡ Refusal.NoMemory) }
    {
        add(
            calls,
            Call::Unmap {
                space: SPACE,
                page: first,
            },
        )?;
        self.regions.remove(place);
        set(&mut self.pages, first, end, None);
        Ok(())
    }
}

/// Where the pages end that begin a range and have the same rights.
fn end_of_run(pages: &[Option<Rights>], at: u32, end: u32) -> u32
    requires some { at < end }
    requires within { end ≤ length pages.now }
    ensures { GoesOn at end result }
{
    for page in at + 1..end {
        if pages[page as usize] != pages[at as usize] {
            return page;
        }
    }
    end
}

/// The wider of a page's rights, where a region has it, and these.
fn wider_of(had: Option<Rights>, rights: Rights) -> Rights {
    match (had, rights) {
        (Some(Rights::Write), _) => Rights::Write,
        (Some(Rights::Read), Rights::NoAccess) => Rights::Read,
        _ => rights,
    }
}

/// Sets what the pages of a range have.
fn set(pages: &mut Vec<Option<Rights>>, first: u32, end: u32, state: Option<Rights>)
    requires order { first ≤ end }
    requires within { end ≤ length pages.old.items }
    ensures { length pages.new.items ≡ length pages.old.items }
{
    pages[first as usize..end as usize].fill(state);
}
