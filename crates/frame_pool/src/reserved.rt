ghost use Rattle.std.specs.Prelude.{◌≡◌, ℕ, ◌+◌, ◌-◌, ◌^◌, ◌<◌, ◌≤◌, Bool, List, Some, None, is_some, true, false, length, option_map, IfOk, IfSome, IfNone};
ghost use Rattle.pager_model.specs.Agreement.{has_frame};
ghost use Rattle.pager_model.specs.Extents.{IsExtent};
ghost use Rattle.pager_model.specs.Layouts.{frame_for, frame_in, populated, record_at, covering, meets_any, preferred_in, to_break};
ghost use Rattle.pager_model.specs.PreferredSize.{IsWanted};
ghost use Rattle.pager_model.specs.Records.{is_used, yield_in, part_at, part_count, parted_records, lowest_as_wide};
ghost use Rattle.pager_model.specs.RecordPlaces.{IsPlaced};
ghost use Rattle.pager_laws.specs.Laid.{IsLaid};
ghost use Rattle.reservations.specs.Kept.{CoversPage};
ghost use Rattle.reservations.specs.Parts.{told_parts};
ghost use Rattle.frame_pool.specs.Placed.{with_reservation};
ghost use Rattle.frame_pool.specs.ReservedChanges.{Vacates, none_reserved, with_free};
ghost use Rattle.pager_model.specs.Bounds.{most_frames, space_pages, most_spaces};

use crate::lists::{delist, enlist, enlist_parts, relist};
use crate::mapped;
use crate::records::{page_at, part_at, yields_in};
use pager_model::{Extent, MOST_SPACES, NoMemory, Reservation, Size, Sizes, Want};
use population_map::PopulationMap;
use reservation_lists::Lists;
use reservations::{Part, Reservations, frame_for};
use size_policy::extent_round;
use std::alloc::Global;
use std::marker::{Brand, Model};
use std::sync::ledger::Blank;

/// The reservations with their used places, the lists of them by age, and the map by which the one that has a page is found: all three
/// change together.
///
/// Contracts see them as a layout in which no frame is free.
#[derive(Drop)]
pub(crate) struct Reserved {
    sizes: Sizes,
    reservations: Reservations,
    lists: Lists,
    map: PopulationMap,
}

impl Model for Reserved {
    ghost use Rattle.pager_model.specs.Layouts.{Layout};
    ghost use Rattle.frame_pool.specs.ReservedState.{reserved_in};
    ghost use Rattle.frame_pool.specs.Listed.{IsInOrder};

    ghost Value = { Layout };

    ghost view = { reserved_in };

    ghost invariant = { λ r. IsInOrder (reserved_in r) r.lists r.map };
}

impl Reserved {
    /// No reservation, over so many frames, by these sizes.
    pub(crate) fn create(alloc: Global, frames: u32, sizes: Sizes) -> Result<Reserved, NoMemory>
        requires { frames ≤ most_frames }
        ensures { IfOk result (λ r. r ≡ none_reserved sizes frames) }
    {
        // What has most to drop is made last, so that no way out drops it.
        Ok(Reserved {
            sizes,
            lists: Lists::create(alloc, frames)?,
            map: PopulationMap::create(alloc, MOST_SPACES, frames)?,
            reservations: Reservations::create(alloc, frames)?,
        })
    }

    /// Which page sizes there are.
    pub(crate) fn sizes(&self) -> Sizes
        ensures { result ≡ self.now.sizes }
    {
        self.sizes
    }

    /// The reservation that begins at the frame `id`, if one does.
    pub(crate) fn get(&self, id: u32) -> Option<Reservation>
        ensures { result ≡ record_at self.now id }
    {
        self.reservations.get(id)
    }

    /// The reservation that has the frame, if one has it.
    pub(crate) fn reservation_of(&self, frame: u32) -> Option<Reservation>
        ensures found { IfSome result (λ r. (record_at self.now r.frame ≡ Some r) × (has_frame frame (Some r) ≡ true)) }
        ensures none { IfNone result ((id : ℕ) → has_frame frame (record_at self.now id) ≡ false) }
    {
        let id = self.reservations.id_of(frame)?;
        self.reservations.get(id)
    }

    /// Whether the frame is a used place.
    pub(crate) fn used(&self, frame: u32) -> bool
        ensures { result ≡ is_used self.now.used frame }
    {
        self.reservations.used(frame)
    }

    /// The reservation that has the page of the space, if one has it: by at most four looks at the map, however many reservations there
    /// are.
    pub(crate) fn covering(&self, space: u32, page: u32) -> Option<Reservation>
        requires few { space < most_spaces }
        requires page { page < space_pages }
        ensures { result ≡ covering space page self.now.records }
    {
        let id = mapped::find::<Brand>(&self.map, space, page, Blank::new(1))?;
        self.reservations.get(id)
    }

    /// How many pages of the space from this one on surely have no used place, and none where this one has one: up to the end of the largest extent
    /// round it without a reservation or, in its reservation, without a used place.
    ///
    /// At most four looks find the reservation, and twelve tell which extents meet one.
    pub(crate) fn placeless_from(&self, space: u32, page: u32) -> u32
        requires few { space < most_spaces }
        requires page { page < space_pages }
        ensures placed { result ≡ 0 → is_some (frame_in self.now space page) ≡ true }
        ensures none { (other : ℕ) → page ≤ other → other < page + result → frame_in self.now space other ≡ None }
    {
        match self.covering(space, page) {
            Some(reservation) => self.unused_from(space, &reservation, page),
            None => self.unreserved_from(space, page),
        }
    }

    /// How many pages of its reservation from this one on surely have no used place.
    fn unused_from(&self, space: u32, reservation: &Reservation, page: u32) -> u32
        requires { covering space page self.now.records ≡ Some reservation.now }
        ensures placed { result ≡ 0 → is_some (frame_in self.now space page) ≡ true }
        ensures none { (other : ℕ) → page ≤ other → other < page + result → frame_in self.now space other ≡ None }
    {
        let reservations = &self.reservations;
        let frame = frame_for(reservation, page);
        let unused = reservations.unused_from(frame);
        unused.min(left_in(reservation.size, reservation.first, page))
    }

    /// How many pages from this one on, which is in no reservation, surely have no used place.
    fn unreserved_from(&self, space: u32, page: u32) -> u32
        requires few { space < most_spaces }
        requires page { page < space_pages }
        requires none { covering space page self.now.records ≡ None }
        ensures some { 0 < result }
        ensures none { (other : ℕ) → page ≤ other → other < page + result → frame_in self.now space other ≡ None }
    {
        for level in (1..4).rev() {
            let pages = self.unmet_from(space, Size::at_level(level), page);
            if pages > 0 {
                return pages;
            }
        }
        1
    }

    /// How many pages the extent of a size round the page has from this one on, where no reservation meets it, and else none.
    fn unmet_from(&self, space: u32, size: Size, page: u32) -> u32
        requires few { space < most_spaces }
        requires page { page < space_pages }
        ensures { (other : ℕ) → page ≤ other → other < page + result → frame_in self.now space other ≡ None }
    {
        let extent = extent_round(size, page);
        if self.meets_any(space, &extent) {
            return 0;
        }
        left_in(extent.size, extent.first, page)
    }

    /// Whether a reservation has a page of the extent of the space's pages: by at most four looks at the map, however many reservations
    /// there are.
    fn meets_any(&self, space: u32, extent: &Extent) -> bool
        requires few { space < most_spaces }
        requires aligned { IsExtent extent.now.size extent.now.first }
        requires within { extent.now.first < space_pages }
        ensures { result ≡ meets_any space self.now.records extent.now.size extent.now.first }
    {
        mapped::meets::<Brand>(&self.map, space, *extent, Blank::new(1))
    }

    /// The size that is tried first for a page.
    pub(crate) fn preferred(&self, space: u32, page: u32, want: &Want) -> Size
        requires few { space < most_spaces }
        requires wanted { IsWanted want.now page }
        ensures { result ≡ preferred_in self.now space page want.now }
    {
        let meets = |extent: Extent| self.meets_any(space, &extent);
        let widest = size_policy::preferred(page, want, meets);
        self.sizes.within(widest)
    }

    /// The first frame of the reservation that is broken for an extent of this size.
    pub(crate) fn to_break(&self, size: Size) -> Option<u32>
        ensures { result ≡ to_break self.now size }
    {
        self.lists.first_oldest(size)
    }

    /// The yield of the reservation.
    pub(crate) fn yields(&self, reservation: &Reservation) -> Option<Size>
        requires { record_at self.now reservation.now.frame ≡ Some reservation.now }
        ensures { result ≡ yield_in self.now.sizes (is_used self.now.used) reservation.now }
    {
        yields_in(&self.reservations, self.sizes, reservation)
    }

    /// The lowest of the parts of a size of a reservation that has this yield, where each is a reservation.
    pub(crate) fn lowest_as_wide(
        &self,
        whole: &Reservation,
        size: Size,
        yields: Option<Size>,
    ) -> Option<Reservation>
        requires splits { size < whole.now.size }
        requires frames { IsExtent whole.now.size whole.now.frame }
        requires pages { IsExtent whole.now.size whole.now.first }
        requires parts { (i : ℕ) → i < part_count size whole.now
            → record_at self.now (part_at size whole.now i).frame ≡ Some (part_at size whole.now i) }
        requires yields { yields ≡ yield_in self.now.sizes (is_used self.now.used) whole.now }
        ensures { result ≡ option_map (part_at size whole.now) (lowest_as_wide self.now.sizes size (is_used self.now.used) whole.now) }
    {
        for i in 0..whole.size.pages() / size.pages() {
            let part = part_at(whole, size, i);
            if self.yields(&part) == yields {
                return Some(part);
            }
        }
        None
    }

    /// Adds a reservation of frames that are in none, whose one used place is the page's, where a layout is sound with it. Answers the
    /// place's frame.
    pub(crate) fn put(&mut self, reservation: Reservation, page: u32) -> u32
        requires has { CoversPage reservation page }
        requires placed { IsPlaced (length self.old.records) reservation.frame reservation }
        requires apart { (frame id : ℕ) → has_frame frame (Some reservation) ≡ true → has_frame frame (record_at self.old id) ≡ false }
        requires few { reservation.space < most_spaces }
        requires within { reservation.first < space_pages }
        requires laid { (free : List Bool) × IsLaid (with_free free (with_reservation reservation page self.old)) }
        ensures put { self.new ≡ with_reservation reservation page self.old }
        ensures frame { result ≡ frame_for page reservation }
    {
        let frame = frame_for(&reservation, page);
        self.reservations.add(reservation, page);
        mapped::insert(&mut self.map, &reservation);
        enlist(
            &mut self.lists,
            &self.reservations,
            self.sizes,
            &reservation,
        );
        frame
    }

    /// Uses the page's place in the reservation, which is as young as the stamp from then on. Answers the place's frame.
    pub(crate) fn populate(&mut self, reservation: &Reservation, page: u32, stamp: u64) -> u32
        requires there { record_at self.old reservation.now.frame ≡ Some reservation.now }
        requires has { CoversPage reservation.now page }
        requires unused { is_used self.old.used (frame_for page reservation.now) ≡ false }
        ensures populated { self.new ≡ (populated stamp page self.old reservation.now).layout }
        ensures frame { result ≡ frame_for page reservation.now }
    {
        self.reservations.populate(reservation.frame, page, stamp);
        let renewed = Reservation {
            stamp,
            ..*reservation
        };
        relist(&mut self.lists, &self.reservations, self.sizes, &renewed);
        frame_for(reservation, page)
    }

    /// The used frame is a used place no more. Where its reservation has no other used place it goes, and these are its frames.
    pub(crate) fn vacate(&mut self, frame: u32) -> Option<Extent>
        requires { is_used self.old.used frame ≡ true }
        ensures { Vacates self.old self.new frame result }
    {
        let reservation = self.reservation_of(frame).unwrap();
        let id = reservation.frame;
        delist(&mut self.lists, &reservation);
        if self.reservations.vacate(id, page_at(&reservation, frame)) {
            mapped::remove(&mut self.map, &reservation);
            self.reservations.dissolve(id);
            return Some(Extent {
                size: reservation.size,
                first: id,
            });
        }
        enlist(
            &mut self.lists,
            &self.reservations,
            self.sizes,
            &reservation,
        );
        None
    }

    /// Splits the reservation into its eight parts: those with a used place are reservations, and the frames of the others are in none.
    pub(crate) fn split(&mut self, whole: &Reservation) -> [Part; 8]
        requires stands { record_at self.old whole.now.frame ≡ Some whole.now }
        requires splits { 0 < whole.now.size }
        ensures parts { result ≡ told_parts (is_used self.old.used) whole.now }
        ensures split { self.new ≡ record self.old {
          records = parted_records (whole.now.size - 1) (is_used self.old.used) whole.now self.old.records;
        } }
    {
        self.lists.remove(whole.frame);
        let parts = self.reservations.split(whole.frame);
        enlist_parts(&mut self.lists, &self.reservations, self.sizes, whole);
        mapped::split(&mut self.map, whole, &parts);
        parts
    }
}

/// How many pages an extent has from this one of them on.
fn left_in(size: Size, first: u32, page: u32) -> u32
    requires { (first ≤ page) × (page < first + 8 ^ size) }
    ensures { page + result ≡ first + 8 ^ size }
{
    size.pages() - (page - first)
}
