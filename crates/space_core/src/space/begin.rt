//! What a call begins with: its answer, or what it needs first.

ghost use Rattle.std.specs.Prelude.{◌≡◌, length, ℕ, ◌+◌, ◌^◌, ◌<◌, ◌≤◌, true, false, Some, None, IfSome, IfNone};
ghost use Rattle.pager_model.specs.Flat.{space_of_call};
ghost use Rattle.pager_model.specs.Order.{is_access};
ghost use Rattle.pager_model.specs.Regions.{end_of, is_wired_kind, range_in, region_at};
ghost use Rattle.region_table.specs.Table.{IsTable};
ghost use Rattle.pager_model.specs.SpaceStates.{access_page};
ghost use Rattle.space_core.specs.Beginning.{Begins, Finds, NeedsItsFrame, NeedsNoFrame};
ghost use Rattle.space_core.specs.Saving.{HadMemory, unwritten_by};
ghost use Rattle.space_core.specs.Standing.{IsResting, frame_at, must_write, one_more_if, CanBegin};
ghost use Rattle.pager_model.specs.Bounds.{space_pages};

use super::{Begun, Lookup, OutFault, Space, copied};
use crate::access::{accessed_page, answered, permits};
use pager_model::{Answered, Call, Kind, Region, Reply, Rights, Want};
use store_core::Store;

impl<S: Store + Send + Drop> Space<S> {
    /// Begins a processor's call on this space: the whole answer, or what it needs first. The store is written once where the call is a lawful
    /// sync or evict of a dirty page, and else not.
    pub fn begin(&mut self, processor: u32, call: &Call) -> Begun
        requires processor { processor < length self.old.images }
        requires space { space_of_call call.now ≡ self.old.number }
        requires resting { IsResting self.old }
        requires can { CanBegin call.now }
        ensures begins { Begins self.old self.new processor call.now result }
        ensures lasting { S.lasts ≡ true → HadMemory result }
        ensures writes { self.new.writes ≡ one_more_if (must_write self.old call.now) self.old.writes }
    {
        match *call {
            Call::Map {
                page,
                length,
                kind,
                rights,
                ..
            } => self.begin_map(page, length, kind, rights),
            Call::Grow { page, by, .. } => self.begin_grow(page, by),
            Call::Unmap { page, .. } => self.begin_unmap(page),
            Call::Protect {
                page,
                length,
                rights,
                ..
            } => self.begin_protect(page, length, rights),
            Call::Load { .. } | Call::Store { .. } => self.begin_access(processor, call),
            Call::Sync { page, .. } => self.begin_sync(page),
            Call::Evict { page, .. } => self.begin_evict(page),
            Call::Discard { page, length, .. } => self.begin_discard(page, length),
            Call::Wire { page, .. } => self.begin_wire(page),
            Call::Unwire { page, .. } => self.begin_unwire(page),
        }
    }

    /// Maps a region, or refuses to.
    fn begin_map(&mut self, page: u32, length: u32, kind: Kind, rights: Rights) -> Begun
        requires resting { IsResting self.old }
        requires can { CanBegin (Call.Map self.old.number page length kind rights) }
        ensures begins { (c : ℕ) → Begins self.old self.new c (Call.Map self.old.number page length kind rights) result }
        ensures unwritten { self.new.writes ≡ self.old.writes }
    {
        match self.regions.map(page, length, kind, rights) {
            Ok(()) => Begun::Answered(answered(Reply::Done)),
            Err(refusal) => Begun::Answered(answered(refusal)),
        }
    }

    /// Makes a region longer, or refuses to.
    fn begin_grow(&mut self, page: u32, by: u32) -> Begun
        requires resting { IsResting self.old }
        requires can { CanBegin (Call.Grow self.old.number page by) }
        ensures begins { (c : ℕ) → Begins self.old self.new c (Call.Grow self.old.number page by) result }
        ensures unwritten { self.new.writes ≡ self.old.writes }
    {
        match self.regions.grow(page, by) {
            Ok(()) => Begun::Answered(answered(Reply::Done)),
            Err(refusal) => Begun::Answered(answered(refusal)),
        }
    }

    /// Begins an unmap, whose region's pages have to give their frames up first.
    fn begin_unmap(&mut self, page: u32) -> Begun
        requires resting { IsResting self.old }
        requires can { CanBegin (Call.Unmap self.old.number page) }
        ensures begins { (c : ℕ) → Begins self.old self.new c (Call.Unmap self.old.number page) result }
        ensures unwritten { self.new.writes ≡ self.old.writes }
    {
        match self.regions.find(page) {
            Some(region) => Begun::NeedsClear {
                first: region.first,
                length: region.length,
            },
            None => Begun::Answered(answered(Reply::Unmapped)),
        }
    }

    /// Begins a discard, whose range's pages have to give their frames up first.
    fn begin_discard(&mut self, page: u32, length: u32) -> Begun
        requires resting { IsResting self.old }
        requires can { CanBegin (Call.Discard self.old.number page length) }
        ensures begins { (c : ℕ) → Begins self.old self.new c (Call.Discard self.old.number page length) result }
        ensures unwritten { self.new.writes ≡ self.old.writes }
    {
        let Some(region) = self.region_with(page, length) else {
            return Begun::Answered(answered(Reply::Unmapped));
        };
        if region.is_wired() {
            return Begun::Answered(answered(Reply::Denied));
        }
        Begun::NeedsClear {
            first: page,
            length,
        }
    }

    /// Begins a wire, whose region's frames have to be wired first.
    fn begin_wire(&mut self, page: u32) -> Begun
        requires resting { IsResting self.old }
        requires can { CanBegin (Call.Wire self.old.number page) }
        ensures begins { (c : ℕ) → Begins self.old self.new c (Call.Wire self.old.number page) result }
        ensures unwritten { self.new.writes ≡ self.old.writes }
    {
        let Some(region) = self.regions.find(page) else {
            return Begun::Answered(answered(Reply::Unmapped));
        };
        Begun::NeedsPin {
            first: region.first,
            length: region.length,
            wired: true,
        }
    }

    /// Begins an unwire, whose region's frames have to be wired no longer first.
    fn begin_unwire(&mut self, page: u32) -> Begun
        requires resting { IsResting self.old }
        requires can { CanBegin (Call.Unwire self.old.number page) }
        ensures begins { (c : ℕ) → Begins self.old self.new c (Call.Unwire self.old.number page) result }
        ensures unwritten { self.new.writes ≡ self.old.writes }
    {
        let Some(region) = self.regions.find(page) else {
            return Begun::Answered(answered(Reply::Unmapped));
        };
        if has_wired_kind(&region) {
            return Begun::Answered(answered(Reply::Denied));
        }
        Begun::NeedsPin {
            first: region.first,
            length: region.length,
            wired: false,
        }
    }

    /// Gives the pages of a range these rights, where it lies in one region.
    fn begin_protect(&mut self, page: u32, length: u32, rights: Rights) -> Begun
        requires resting { IsResting self.old }
        requires can { CanBegin (Call.Protect self.old.number page length rights) }
        ensures begins { (c : ℕ) → Begins self.old self.new c (Call.Protect self.old.number page length rights) result }
        ensures unwritten { self.new.writes ≡ self.old.writes }
    {
        let Some(_) = self.region_with(page, length) else {
            return Begun::Answered(answered(Reply::Unmapped));
        };
        let moves = self.table.protect(page, length, rights);
        self.follow(moves);
        Begun::Answered(answered(Reply::Done))
    }

    /// The region that has each page of the range, if one has.
    fn region_with(&self, page: u32, length: u32) -> Option<Region>
        requires { page + length < 2 ^ 32 }
        ensures some { IfSome result (λ r. (region_at self.now.regions page ≡ Some r) × (page + length ≤ end_of r)) }
        ensures none { IfNone result (range_in page length (region_at self.now.regions page) ≡ false) }
        ensures ordered { IsTable self.now.regions }
    {
        let region = self.regions.find(page)?;
        if page + length > region.first + region.length {
            return None;
        }
        Some(region)
    }

    /// Begins a load or a store.
    fn begin_access(&mut self, processor: u32, call: &Call) -> Begun
        requires processor { processor < length self.old.images }
        requires space { space_of_call call.now ≡ self.old.number }
        requires resting { IsResting self.old }
        requires can { CanBegin call.now }
        requires access { is_access call.now ≡ true }
        ensures begins { Begins self.old self.new processor call.now result }
        ensures unwritten { self.new.writes ≡ self.old.writes }
    {
        let Some(page) = accessed_page(call) else {
            unreachable!()
        };
        match self.look(page, call) {
            Lookup::Refused(refusal) => Begun::Answered(answered(refusal)),
            Lookup::Absent(want) => Begun::NeedsFrame { page, want },
            Lookup::Resident(found) => Begun::Answered(self.finish(processor, call, found)),
        }
    }

    /// The page of a load or a store that is allowed and isn't resident, with what its region wants of a frame for it. `None` exactly where
    /// the call needs no frame.
    pub fn wants(&self, call: &Call) -> Option<(u32, Want)>
        requires space { space_of_call call.now ≡ self.now.number }
        requires can { CanBegin call.now }
        requires access { is_access call.now ≡ true }
        ensures some { IfSome result (λ want. NeedsItsFrame self.now call.now want.0 want.1) }
        ensures none { IfNone result (NeedsNoFrame self.now call.now) }
    {
        let page = accessed_page(call)?;
        match self.look(page, call) {
            Lookup::Absent(want) => Some((page, want)),
            Lookup::Refused(_) | Lookup::Resident(_) => None,
        }
    }

    /// What there is at the page of a load or a store. A resident page is mapped with its rights, so its region isn't looked for.
    fn look(&self, page: u32, call: &Call) -> Lookup
        requires space { space_of_call call.now ≡ self.now.number }
        requires can { CanBegin call.now }
        requires page { access_page call.now ≡ Some page }
        requires in_space { page < space_pages }
        ensures { Finds self.now call.now page result }
    {
        match self.table.translate(page) {
            Some(found) if permits(found.mapping.rights, call) => Lookup::Resident(found),
            Some(_) => Lookup::Refused(Reply::Denied),
            None => self.look_at_region(page, call),
        }
    }

    /// The same for a page that isn't resident, by its region.
    fn look_at_region(&self, page: u32, call: &Call) -> Lookup
        requires space { space_of_call call.now ≡ self.now.number }
        requires can { CanBegin call.now }
        requires page { access_page call.now ≡ Some page }
        requires in_space { page < space_pages }
        requires absent { frame_at self.now page ≡ None }
        ensures { Finds self.now call.now page result }
    {
        let Some(region) = self.regions.find(page) else {
            return Lookup::Refused(Reply::Unmapped);
        };
        if !permits(self.rights(page, region), call) {
            return Lookup::Refused(Reply::Denied);
        }
        let Some(want) = self.regions.want_at(page) else {
            unreachable!()
        };
        Lookup::Absent(want)
    }

    /// Writes the copy of a page where it is dirty, and answers.
    fn begin_sync(&mut self, page: u32) -> Begun
        requires resting { IsResting self.old }
        requires can { CanBegin (Call.Sync self.old.number page) }
        ensures begins { (c : ℕ) → Begins self.old self.new c (Call.Sync self.old.number page) result }
        ensures lasting { S.lasts ≡ true → HadMemory result }
        ensures writes { self.new.writes ≡ one_more_if (must_write self.old (Call.Sync self.old.number page)) self.old.writes }
    {
        if self.regions.find(page).is_none() {
            return Begun::Answered(answered(Reply::Unmapped));
        }
        match self.copy_out(page) {
            Ok(written) => Begun::Answered(answered(copied(written))),
            Err(fault) => unwritten(page, fault),
        }
    }

    /// Writes the copy of a page where it is dirty, and answers where the page has no frame to give up.
    fn begin_evict(&mut self, page: u32) -> Begun
        requires resting { IsResting self.old }
        requires can { CanBegin (Call.Evict self.old.number page) }
        ensures begins { (c : ℕ) → Begins self.old self.new c (Call.Evict self.old.number page) result }
        ensures lasting { S.lasts ≡ true → HadMemory result }
        ensures writes { self.new.writes ≡ one_more_if (must_write self.old (Call.Evict self.old.number page)) self.old.writes }
    {
        let Some(region) = self.regions.find(page) else {
            return Begun::Answered(answered(Reply::Unmapped));
        };
        if region.is_wired() {
            return Begun::Answered(answered(Reply::Denied));
        }
        let Some(mapping) = self.table.mapping(page) else {
            return Begun::Answered(answered(Reply::Clean));
        };
        match self.save(page, mapping) {
            Ok(_) => {
                self.paged = Some(page);
                Begun::NeedsEvict { page }
            }
            Err(fault) => unwritten(page, fault),
        }
    }
}

/// Whether the region is wired by its kind, and so stays wired.
fn has_wired_kind(region: &Region) -> bool
    ensures { result ≡ is_wired_kind region.now.kind }
{
    region.kind == Kind::Wired
}

/// What a sync or an evict meets where the copy of its page was not written.
fn unwritten(page: u32, fault: OutFault) -> Begun
    ensures { result ≡ unwritten_by page fault }
{
    match fault {
        OutFault::Failed { count } => Begun::Failed { page, count },
        OutFault::NoMemory => Begun::Answered(answered(Reply::NoMemory)),
    }
}
