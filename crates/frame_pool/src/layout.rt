ghost use Rattle.std.specs.Prelude.{◌≡◌, ℕ, Bool, ◌+◌, ◌-◌, ◌%◌, ◌<◌, ◌≤◌, Some, true, false, length, slice_index_or, count_by, IfOk, IfSome, IfNone, IsSomeAnd, None, is_some};
ghost use Rattle.pager_model.specs.Agreement.{has_frame};
ghost use Rattle.pager_model.specs.Layouts.{start_layout, frame_for, frame_in, parted, parted_free, split_layout, broken_at, to_break, record_at};
ghost use Rattle.pager_model.specs.Layouts.{carve_layout, narrow_layout, vacate_layout, put_back};
ghost use Rattle.pager_model.specs.Layouts.{extent_of, largest_extent, placing, preferred_in};
ghost use Rattle.pager_model.specs.PreferredSize.{IsWanted};
ghost use Rattle.pager_model.specs.Records.{is_used, part_size, same_size, goes_on_at};
ghost use Rattle.pager_model.specs.RecordPlaces.{IsPlaced};
ghost use Rattle.reservations.specs.Parts.{told_parts};
ghost use Rattle.pager_laws.specs.Laid.{IsIn, IsLaid};
ghost use Rattle.frame_pool.specs.Placed.{CanBreak, extent_there, FindsExtent, PlacesPage};
ghost use Rattle.pager_model.specs.Bounds.{most_frames, space_pages, most_spaces};

use crate::free::{give, take};
use crate::reserved::Reserved;
use buddy_extents::Free;
use pager_model::{Extent, NoMemory, Reservation, Size, Sizes, Want};
use reservations::{Part, frame_for};
use size_policy::extent_round;
use std::alloc::Global;
use std::marker::Model;

/// Which frames are free, and the reservations of the others.
///
/// Contracts see it as the layout of the frames.
#[derive(Drop)]
pub(crate) struct Layout {
    free: Free,
    reserved: Reserved,
}

impl Model for Layout {
    ghost use Rattle.std.specs.Prelude.{◌≤◌, length};
    ghost use Rattle.pager_model.specs.Bounds.{most_frames};
    ghost use Rattle.pager_model.specs.Layouts.{Layout};
    ghost use Rattle.pager_laws.specs.Laid.{IsLaid};
    ghost use Rattle.frame_pool.specs.LayoutState.{layout_in};

    ghost Value = { Layout };

    ghost view = { layout_in };

    ghost invariant = { λ l. IsLaid (layout_in l) × (length l.free ≤ most_frames) };
}

/// An extent of frames for a new reservation, and how many reservations were broken for it.
#[derive(Clone, Copy)]
pub(crate) struct FreeExtent {
    size: Size,
    first: u32,
    broken: u64,
}

/// The frame of a page's place, and how many reservations were broken for it.
#[derive(Clone, Copy)]
pub(crate) struct Place {
    pub(crate) frame: u32,
    pub(crate) broken: u64,
}

impl Layout {
    /// All frames are free, and there are these sizes.
    pub(crate) fn create(alloc: Global, frames: u32, sizes: Sizes) -> Result<Layout, NoMemory>
        requires whole { frames % 512 ≡ 0 }
        requires most { frames ≤ most_frames }
        ensures { IfOk result (λ l. l ≡ start_layout sizes frames) }
    {
        Ok(Layout {
            free: Free::create(alloc, frames)?,
            reserved: Reserved::create(alloc, frames, sizes)?,
        })
    }

    /// The reservation that has the frame, if one has it.
    pub(crate) fn reservation_of(&self, frame: u32) -> Option<Reservation>
        ensures found { IfSome result (λ r. (record_at self.now r.frame ≡ Some r) × (has_frame frame (Some r) ≡ true)) }
        ensures none { IfNone result ((id : ℕ) → has_frame frame (record_at self.now id) ≡ false) }
        ensures laid { IsLaid self.now }
    {
        self.reserved.reservation_of(frame)
    }

    /// The frame of the page's place, where it has one. At most four looks find it.
    pub(crate) fn frame_of(&self, space: u32, page: u32) -> Option<u32>
        requires few { space < most_spaces }
        requires page { page < space_pages }
        ensures { result ≡ frame_in self.now space page }
    {
        let reservation = self.reserved.covering(space, page)?;
        let frame = frame_for(&reservation, page);
        self.reserved.used(frame).then_some(frame)
    }

    /// How many pages of the space from this one on surely have no place, and none where this one has one: up to the end of the largest extent round
    /// it without a reservation or, in its reservation, without a used place. At most twenty looks tell.
    pub(crate) fn placeless_from(&self, space: u32, page: u32) -> u32
        requires few { space < most_spaces }
        requires page { page < space_pages }
        ensures placed { result ≡ 0 → is_some (frame_in self.now space page) ≡ true }
        ensures none { (other : ℕ) → page ≤ other → other < page + result → frame_in self.now space other ≡ None }
    {
        self.reserved.placeless_from(space, page)
    }

    /// The size that a new reservation round the page is tried with first, before frames are looked at.
    pub(crate) fn preferred(&self, space: u32, page: u32, want: &Want) -> Size
        requires few { space < most_spaces }
        requires wanted { IsWanted want.now page }
        ensures { result ≡ preferred_in self.now space page want.now }
    {
        self.reserved.preferred(space, page, want)
    }

    /// How many frames are free.
    pub(crate) fn free_frames(&self) -> u32
        ensures { result ≡ count_by (λ free. free) self.now.free }
    {
        self.free.count()
    }

    /// Gives a page of a space, which has none, a place: in the reservation that has the page, or in a new one. `None` exactly
    /// where there is none, and then nothing changes.
    ///
    /// At most four looks find the reservation, and for each of the sizes 3, 2 and 1 at most four tell whether the extent round the page
    /// meets one.
    pub(crate) fn reserve(
        &mut self,
        stamp: u64,
        space: u32,
        page: u32,
        want: &Want,
    ) -> Option<Place>
        requires few { space < most_spaces }
        requires unplaced { frame_in self.old space page ≡ None }
        requires wanted { IsWanted want.now page }
        ensures placed { IfSome result (λ p. PlacesPage self.old self.new (placing stamp space page want.now self.old) p.frame p.broken) }
        ensures none { IfNone result ((placing stamp space page want.now self.old ≡ None) × (self.new ≡ self.old)) }
    {
        if let Some(reservation) = self.reserved.covering(space, page) {
            let frame = self.reserved.populate(&reservation, page, stamp);
            return Some(Place { frame, broken: 0 });
        }
        let size = self.reserved.preferred(space, page, want);
        let found = self.largest_extent(size)?;
        let pages = extent_round(found.size, page);
        let reservation = Reservation {
            space,
            first: pages.first,
            size: found.size,
            frame: found.first,
            stamp,
        };
        let frame = self.reserved.put(reservation, page);
        Some(Place {
            frame,
            broken: found.broken,
        })
    }

    /// Takes an extent for a new reservation out of the free frames: of the largest size, up to this one, for which one can be
    /// had.
    fn largest_extent(&mut self, size: Size) -> Option<FreeExtent>
        ensures found { IfSome result (λ f. FindsExtent self.new (largest_extent size self.old) f.size f.first f.broken) }
        ensures none { IfNone result ((largest_extent size self.old ≡ None) × (self.new ≡ self.old)) }
    {
        for level in (0..size.level() + 1).rev() {
            let size = Size::of(level).unwrap();
            let found = self.extent_there(size);
            if found.is_some() {
                return found;
            }
        }
        None
    }

    /// An extent of this size, where there is the size.
    fn extent_there(&mut self, size: Size) -> Option<FreeExtent>
        ensures found { IfSome result (λ f. FindsExtent self.new (extent_there size self.old) f.size f.first f.broken) }
        ensures none { IfNone result ((extent_there size self.old ≡ None) × (self.new ≡ self.old)) }
    {
        if !self.reserved.sizes().has(size) {
            return None;
        }
        self.extent_of(size)
    }

    /// Takes an extent of this size out of the free frames. Where none is free, the oldest reservation of the first list that can
    /// give one back is broken for it.
    fn extent_of(&mut self, size: Size) -> Option<FreeExtent>
        ensures found { IfSome result (λ f. FindsExtent self.new (extent_of size self.old) f.size f.first f.broken) }
        ensures none { IfNone result ((extent_of size self.old ≡ None) × (self.new ≡ self.old)) }
    {
        if let Some(first) = take(&mut self.free, size) {
            return Some(FreeExtent {
                size,
                first,
                broken: 0,
            });
        }
        let id = self.to_break(size)?;
        self.break_at(id);
        let first = take(&mut self.free, size).unwrap();
        Some(FreeExtent {
            size,
            first,
            broken: 1,
        })
    }

    /// The first frame of the reservation that is broken for an extent of this size.
    fn to_break(&self, size: Size) -> Option<u32>
        ensures { result ≡ to_break self.now size }
    {
        self.reserved.to_break(size)
    }

    /// Breaks the reservation that begins at the frame `id`.
    fn break_at(&mut self, id: u32)
        requires { IfSome (record_at self.old id) (CanBreak self.old) }
        ensures { self.new ≡ broken_at id self.old }
    {
        let mut part = self.reserved.get(id);
        while let Some(whole) = part {
            part = self.split_to_break(&whole);
        }
    }

    /// Splits the reservation, and answers the part of it at which its breaking goes on.
    fn split_to_break(&mut self, whole: &Reservation) -> Option<Reservation>
        requires { CanBreak self.old whole.now }
        ensures split { self.new ≡ split_layout whole.now self.old }
        ensures next { result ≡ goes_on_at self.old.sizes (is_used self.old.used) whole.now }
        ensures breaks { IfSome result (CanBreak self.new) }
    {
        let yields = self.reserved.yields(whole);
        let size = self.split_down(whole);
        if size.level() == 0 {
            return None;
        }
        if is_size(&yields, size) {
            return None;
        }
        self.reserved.lowest_as_wide(whole, size, yields)
    }

    /// Splits the reservation into its extents of the next smaller size: those with a used place are reservations, and the frames of
    /// the others are free. Answers this size.
    fn split_down(&mut self, whole: &Reservation) -> Size
        requires stands { record_at self.old whole.now.frame ≡ Some whole.now }
        requires splits { 0 < whole.now.size }
        ensures split { self.new ≡ split_layout whole.now self.old }
        ensures size { result ≡ part_size self.old.sizes whole.now }
    {
        let size = self.part_size(whole);
        self.split_to(whole, size);
        size
    }

    /// The size of the parts into which a reservation is split.
    fn part_size(&self, whole: &Reservation) -> Size
        requires { 0 < whole.now.size }
        ensures { result ≡ part_size self.now.sizes whole.now }
    {
        self.reserved.sizes().within(whole.size.smaller())
    }

    /// Splits the reservation into its extents of a smaller size, by eight parts at a time.
    fn split_to(&mut self, whole: &Reservation, size: Size)
        requires stands { record_at self.old whole.now.frame ≡ Some whole.now }
        requires smaller { size < whole.now.size }
        ensures { self.new ≡ parted size whole.now self.old }
    {
        // Where no size between them is left out, its eight parts are of this size.
        if whole.size.level() == size.level() + 1 {
            self.split(whole);
            return;
        }
        // Named so that the proof sees that the reservation ends within the frames.
        let _ = &self.free;
        let end = whole.frame + whole.size.pages();
        let mut next = whole.frame;
        while next < end {
            match self.reserved.get(next) {
                Some(part) if part.size.level() > size.level() => self.split(&part),
                _ => next += size.pages(),
            }
        }
    }

    /// Splits the reservation into its eight parts: those with a used place are reservations, and the frames of the others are free.
    fn split(&mut self, whole: &Reservation)
        requires stands { record_at self.old whole.now.frame ≡ Some whole.now }
        requires splits { 0 < whole.now.size }
        ensures { self.new ≡ parted (whole.now.size - 1) whole.now self.old }
    {
        let parts = self.reserved.split(whole);
        give_parts(&mut self.free, whole, &parts);
    }

    /// The used frame is a used place no more, and where its reservation has no other used place, all its frames are free.
    pub(crate) fn vacate(&mut self, frame: u32)
        requires { is_used self.old.used frame ≡ true }
        ensures { (id : ℕ) → IfSome (record_at self.old id) (λ r. has_frame frame (Some r) ≡ true → self.new ≡ vacate_layout frame r self.old) }
    {
        let Some(extent) = self.reserved.vacate(frame) else {
            return;
        };
        give(&mut self.free, extent);
    }

    /// The used frame is carved out: it is neither free nor a place then, and the rest of its reservation is free or reserved.
    pub(crate) fn carve(&mut self, frame: u32)
        requires { is_used self.old.used frame ≡ true }
        ensures { (id : ℕ) → IfSome (record_at self.old id) (λ r. has_frame frame (Some r) ≡ true → self.new ≡ carve_layout frame r self.old) }
    {
        self.narrow(frame);
        self.reserved.vacate(frame);
    }

    /// Splits the reservation that has the used frame, and then the part that has it, down to the frame.
    fn narrow(&mut self, frame: u32)
        requires { is_used self.old.used frame ≡ true }
        ensures narrowed { (id : ℕ) → IfSome (record_at self.old id) (λ r. has_frame frame (Some r) ≡ true → self.new ≡ narrow_layout frame r self.old) }
        ensures alone { IsSomeAnd (record_at self.new frame) (λ r. r.size ≡ 0) }
    {
        let mut part = self.reservation_of(frame).unwrap();
        while part.size.level() > 0 {
            self.split_down(&part);
            part = self.reservation_of(frame).unwrap();
        }
    }

    /// A frame that is neither free nor a place is free.
    pub(crate) fn put_back(&mut self, frame: u32)
        requires known { frame < length self.old.free }
        requires out { IsIn self.old frame → ⊥ }
        ensures { self.new ≡ put_back frame self.old }
    {
        give(
            &mut self.free,
            Extent {
                size: Size::of(0).unwrap(),
                first: frame,
            },
        );
    }
}

/// Whether the yield is this size.
fn is_size(yields: &Option<Size>, size: Size) -> bool
    ensures { result ≡ same_size yields.now (Some size) }
{
    *yields == Some(size)
}

/// Frees the frames of those parts of a reservation that have no used place.
fn give_parts(free: &mut Free, whole: &Reservation, parts: &[Part])
    requires placed { IsPlaced (length free.old) whole.now.frame whole.now }
    requires splits { 0 < whole.now.size }
    requires taken { (frame : ℕ) → has_frame frame (Some whole.now) ≡ true → slice_index_or free.old frame false ≡ false }
    requires parts { (used : ℕ → Bool) × (parts.now ≡ told_parts used whole.now) }
    ensures { (used : ℕ → Bool) → parts.now ≡ told_parts used whole.now → free.new ≡ parted_free (whole.now.size - 1) used whole.now free.old }
{
    for part in parts {
        if part.empty {
            give(free, part.extent);
        }
    }
}
