ghost use Rattle.std.specs.Prelude.{◌≡◌, ℕ, ◌<◌, ◌≤◌, ◌+◌, ◌-◌, ◌*◌, ◌/◌, ◌^◌, length, replicate, slice_set, map, true, false, IfOk};
ghost use Rattle.std.specs.List.{range_with_len};
ghost use Rattle.pager_model.specs.Extents.{IsExtent, extent_start};
ghost use Rattle.pager_model.specs.Records.{is_used, none_used, yield_of};
ghost use Rattle.reservations.specs.Counts.{used_in, AreCounts};
ghost use Rattle.pager_model.specs.RecordPlaces.{IsPlaced};
ghost use Rattle.reservations.specs.Parts.{told_part, told_parts};

use crate::part::Part;
use pager_model::{Extent, NoMemory, Reservation, Size};
use std::alloc::Global;
use std::marker::Model;

/// Which frames are used places, with the number of used places in each extent of 8, 64 and 512 frames.
///
/// Contracts see it as the list that says of each frame whether it is one.
#[derive(Drop)]
pub(crate) struct UsedPlaces {
    used: Vec<bool>,
    small: Vec<u16>,
    middle: Vec<u16>,
    large: Vec<u16>,
}

impl Model for UsedPlaces {
    ghost use Rattle.std.specs.Prelude.{List, Bool};
    ghost use Rattle.reservations.specs.Counts.{AreCounts};

    ghost Value = { List Bool };

    ghost view = { λ p. p.used.items };

    ghost invariant = { λ p. AreCounts p.used.items 8 p.small.items
        × AreCounts p.used.items 64 p.middle.items
        × AreCounts p.used.items 512 p.large.items };
}

/// Zero for each extent of so many frames.
fn zeros(alloc: Global, frames: u32, pages: u32) -> Result<Vec<u16>, NoMemory>
    requires { 0 < pages }
    ensures { IfOk result (λ counts. counts.items ≡ replicate (frames / pages + 1) 0) }
{
    Ok(vec![in alloc; 0; (frames / pages) as usize + 1]?)
}

impl UsedPlaces {
    /// No frame is a used place.
    pub(crate) fn create(alloc: Global, frames: u32) -> Result<UsedPlaces, NoMemory>
        ensures { IfOk result (λ places. places ≡ replicate frames false) }
    {
        Ok(UsedPlaces {
            used: vec![in alloc; false; frames as usize]?,
            small: zeros(alloc, frames, 8)?,
            middle: zeros(alloc, frames, 64)?,
            large: zeros(alloc, frames, 512)?,
        })
    }

    /// Whether the frame is a used place.
    pub(crate) fn contains(&self, frame: u32) -> bool
        ensures { result ≡ is_used self.now frame }
    {
        self.used.get(frame as usize).copied().unwrap_or(false)
    }

    /// Makes the frame a used place.
    pub(crate) fn insert(&mut self, frame: u32)
        requires known { frame < length self.old }
        requires unused { is_used self.old frame ≡ false }
        ensures { self.new ≡ slice_set self.old frame true }
    {
        let frame = frame as usize;
        self.used[frame] = true;
        self.small[frame / 8] += 1;
        self.middle[frame / 64] += 1;
        self.large[frame / 512] += 1;
    }

    /// The frame is no used place any more.
    pub(crate) fn remove(&mut self, frame: u32)
        requires known { frame < length self.old }
        requires used { is_used self.old frame ≡ true }
        ensures { self.new ≡ slice_set self.old frame false }
    {
        let frame = frame as usize;
        self.used[frame] = false;
        self.small[frame / 8] -= 1;
        self.middle[frame / 64] -= 1;
        self.large[frame / 512] -= 1;
    }

    /// How many used places the extent of a size from `first` on has.
    pub(crate) fn count(&self, size: Size, first: u32) -> u16
        requires aligned { IsExtent size first }
        requires known { first < length self.now }
        ensures { result ≡ used_in self.now first (8 ^ size) }
    {
        let first = first as usize;
        match size.level() {
            0 => u16::from(self.used[first]),
            1 => self.small[first / 8],
            2 => self.middle[first / 64],
            _ => self.large[first / 512],
        }
    }

    /// Whether the extent of a size from `first` on has no used place.
    pub(crate) fn is_empty(&self, size: Size, first: u32) -> bool
        requires aligned { IsExtent size first }
        requires known { first < length self.now }
        ensures { result ≡ none_used (is_used self.now) first (8 ^ size) }
    {
        self.count(size, first) == 0
    }
}

/// The first number of the extent of a size round a frame.
fn start_round(size: Size, frame: u32) -> u32
    ensures first { result ≡ extent_start size frame }
    ensures aligned { IsExtent size result }
    ensures round { (result ≤ frame) × (frame < result + 8 ^ size) }
{
    let pages = size.pages();
    frame / pages * pages
}

impl UsedPlaces {
    /// How many frames from this one on surely are no used places: those up to the end of the largest extent round it without one, and none where
    /// it is one itself. It looks at four counts at most.
    pub(crate) fn unused_from(&self, frame: u32) -> u32
        requires { frame < length self.now }
        ensures used { result ≡ 0 → is_used self.now frame ≡ true }
        ensures unused { (other : ℕ) → frame ≤ other → other < frame + result → is_used self.now other ≡ false }
    {
        if self.contains(frame) {
            return 0;
        }
        for level in (1..4).rev() {
            let size = Size::at_level(level);
            let first = start_round(size, frame);
            if self.is_empty(size, first) {
                return size.pages() - (frame - first);
            }
        }
        1
    }
}

/// What the used places say of a reservation.
impl UsedPlaces {
    /// How many used places each extent of a size above the smallest has.
    fn counts(&self, size: Size) -> &[u16]
        requires { 0 < size }
        ensures { AreCounts self.now (8 ^ size) result.now }
    {
        match size.level() {
            1 => &self.small,
            2 => &self.middle,
            _ => &self.large,
        }
    }

    /// The counts of the extents of a size above the smallest inside the reservation.
    fn counts_in(&self, whole: &Reservation, size: Size) -> &[u16]
        requires placed { IsPlaced (length self.now) whole.now.frame whole.now }
        requires inside { size ≤ whole.now.size }
        requires counted { 0 < size }
        ensures { result.now ≡
            map (λ i. used_in self.now (whole.now.frame + i * 8 ^ size) (8 ^ size)) (range_with_len 0 (8 ^ (whole.now.size - size))) }
    {
        let pages = size.pages();
        let first = (whole.frame / pages) as usize;
        let many = (whole.size.pages() / pages) as usize;
        &self.counts(size)[first..first + many]
    }

    /// The size of the largest extent inside the reservation without a used place, and `None` where it is full.
    pub(crate) fn yield_of(&self, whole: &Reservation) -> Option<Size>
        requires { IsPlaced (length self.now) whole.now.frame whole.now }
        ensures { result ≡ yield_of (is_used self.now) whole.now }
    {
        let used = u32::from(self.count(whole.size, whole.frame));
        if used == whole.size.pages() {
            return None;
        }
        if used == 0 {
            return Some(whole.size);
        }
        for level in (1..whole.size.level()).rev() {
            let size = Size::at_level(level);
            if self.counts_in(whole, size).contains(&0) {
                return Some(size);
            }
        }
        // A reservation that isn't full has an unused frame, and no walk over its frames is needed to tell.
        Some(Size::at_level(0))
    }

    /// One of the eight parts of the reservation.
    pub(crate) fn part(&self, whole: &Reservation, i: u32) -> Part
        requires placed { IsPlaced (length self.now) whole.now.frame whole.now }
        requires splits { 0 < whole.now.size }
        requires one { i < 8 }
        ensures { result ≡ told_part (is_used self.now) whole.now i }
    {
        let size = whole.size.smaller();
        let first = whole.frame + i * size.pages();
        Part {
            extent: Extent { size, first },
            empty: self.is_empty(size, first),
        }
    }

    /// The eight parts of the reservation.
    pub(crate) fn parts(&self, whole: &Reservation) -> [Part; 8]
        requires placed { IsPlaced (length self.now) whole.now.frame whole.now }
        requires splits { 0 < whole.now.size }
        ensures { result ≡ told_parts (is_used self.now) whole.now }
    {
        let mut parts = [self.part(whole, 0); 8];
        for i in 1..8 {
            parts[i] = self.part(whole, i as u32);
        }
        parts
    }
}
