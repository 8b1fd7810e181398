//! The reservations: which frames each has, which of them are used places, and what each can give back.
//!
//! A reservation is an extent of pages with an extent of frames, and is named by its first frame. A frame of it becomes a
//! used place when its page is populated. A reservation that isn't full can give back the largest extent inside it without
//! a used place, its yield; to do so it is split into its eight parts, of which the empty ones are free.
#![tactic(auto)]

ghost use Rattle.std.specs.Prelude.{◌≡◌, ℕ, ◌<◌, ◌≤◌, ◌+◌, ◌^◌, ◌↔◌, length, replicate, slice_set};
ghost use Rattle.std.specs.Prelude.{true, false, IfOk, IfSome, IsSome, IsSomeAnd};
ghost use Rattle.pager_model.specs.Agreement.{has_frame};
ghost use Rattle.pager_model.specs.Extents.{IsExtent};
ghost use Rattle.pager_model.specs.Layouts.{frame_for, stamped};
ghost use Rattle.pager_model.specs.OptionalIndices.{no_index};
ghost use Rattle.pager_model.specs.Records.{is_used, none_used, yield_of, kept_part, split_records};
ghost use Rattle.reservations.specs.Kept.{reservation_at, with_record, with_used, first_frame, AreNoted, CoversPage, HasPlace, IsFilled};
ghost use Rattle.pager_model.specs.RecordPlaces.{ArePlaced, IsPlaced};
ghost use Rattle.reservations.specs.Parts.{told_parts};

mod part;
mod places;
mod record;

use pager_model::{NoMemory, OptionalIndex, Reservation, Size};
pub use part::Part;
use places::UsedPlaces;
use record::Record;
use std::alloc::Global;
use std::marker::Model;

/// The reservations over a number of frames, with all the memory that they ever need.
#[derive(Drop)]
pub struct Reservations {
    /// For each frame the reservation that begins at it.
    records: Vec<Record>,
    /// For each frame the first frame of the reservation that has it.
    ids: Vec<OptionalIndex>,
    used: UsedPlaces,
}

impl Model for Reservations {
    ghost use Rattle.std.specs.Prelude.{◌≤◌, length};
    ghost use Rattle.pager_model.specs.Records.{Records};
    ghost use Rattle.pager_model.specs.OptionalIndices.{no_index};
    ghost use Rattle.reservations.specs.Kept.{AreKept};

    ghost Value = { Records };

    ghost view = { λ r. record { records = r.records.items; used = r.used } };

    // Each frame's number is an index, and none is the one that stands for none.
    ghost invariant = { λ r. AreKept r.records.items r.ids.items r.used × (length r.records.items ≤ no_index) };
}

impl Reservations {
    /// No reservation, and no used place.
    pub fn create(alloc: Global, frames: u32) -> Result<Reservations, NoMemory>
        ensures { IfOk result
            (λ kept. kept ≡ record { records = replicate frames None; used = replicate frames false }) }
    {
        Ok(Reservations {
            records: vec![in alloc; Record::NONE; frames as usize]?,
            ids: vec![in alloc; OptionalIndex::NONE; frames as usize]?,
            used: UsedPlaces::create(alloc, frames)?,
        })
    }

    /// The reservation that begins at the frame `id`, if one does.
    pub fn get(&self, id: u32) -> Option<Reservation>
        ensures record { result ≡ reservation_at self.now id }
        ensures placed { IfSome result (IsPlaced (length self.now.records) id) }
    {
        self.records.get(id as usize)?.get()
    }

    /// The first frame of the reservation that has the frame, as a used place or not, if one has it.
    pub fn id_of(&self, frame: u32) -> Option<u32>
        ensures { (id : ℕ) → (result ≡ Some id) ↔ (has_frame frame (reservation_at self.now id) ≡ true) }
    {
        self.ids.get(frame as usize)?.get()
    }

    /// Whether the frame is a used place.
    pub fn used(&self, frame: u32) -> bool
        ensures { result ≡ is_used self.now.used frame }
    {
        self.used.contains(frame)
    }

    /// How many frames from this one on surely are no used places: those up to the end of the largest extent round it without one, and none where
    /// it is one itself. It looks at four counts at most.
    pub fn unused_from(&self, frame: u32) -> u32
        requires { frame < length self.now.records }
        ensures used { result ≡ 0 → is_used self.now.used frame ≡ true }
        ensures unused { (other : ℕ) → frame ≤ other → other < frame + result → is_used self.now.used other ≡ false }
    {
        self.used.unused_from(frame)
    }

    /// The yield of the reservation that begins at the frame `id`: the largest size of an extent inside it without a used
    /// place, and `None` where it is full.
    pub fn yields(&self, id: u32) -> Option<Size>
        requires { IsSome (reservation_at self.now id) }
        ensures { IfSome (reservation_at self.now id) (λ r. result ≡ yield_of (is_used self.now.used) r) }
    {
        let reservation = self.get(id).unwrap();
        self.used.yield_of(&reservation)
    }

    /// Adds a reservation whose first page to be populated is this one.
    pub fn add(&mut self, reservation: Reservation, page: u32)
        requires page { CoversPage reservation page }
        requires frames { IsExtent reservation.size reservation.frame }
        requires known { reservation.frame + 8 ^ reservation.size ≤ length self.old.records }
        requires pages { IsExtent reservation.size reservation.first }
        requires apart { (frame id : ℕ) → has_frame frame (Some reservation) ≡ true
            → has_frame frame (reservation_at self.old id) ≡ false }
        ensures { self.new ≡ with_used (with_record self.old reservation.frame (Some reservation))
            (frame_for page reservation) true }
    {
        let place = frame_for(&reservation, page);
        self.used.insert(place);
        write(
            self.records.as_mut_slice(),
            self.ids.as_mut_slice(),
            reservation.frame,
            reservation.size,
            Some(reservation),
        );
    }

    /// Makes the place of the page a used one of the reservation that begins at the frame `id`, which is as young as the
    /// stamp from then on.
    pub fn populate(&mut self, id: u32, page: u32, stamp: u64)
        requires { HasPlace self.old id page false }
        ensures { IfSome (reservation_at self.old id) (λ r.
            self.new ≡ with_used (with_record self.old id (Some (stamped r stamp))) (frame_for page r) true) }
    {
        let mut reservation = self.get(id).unwrap();
        self.used.insert(frame_for(&reservation, page));
        reservation.stamp = stamp;
        self.records[id as usize] = Record::of(Some(reservation));
    }

    /// The place of the page in the reservation that begins at the frame `id` is no used one any more. Answers whether the
    /// reservation has no used place now.
    pub fn vacate(&mut self, id: u32, page: u32) -> bool
        requires { HasPlace self.old id page true }
        ensures vacated { IfSome (reservation_at self.old id)
            (λ r. self.new ≡ with_used self.old (frame_for page r) false) }
        ensures last { IfSome (reservation_at self.old id)
            (λ r. result ≡ none_used (is_used self.new.used) r.frame (8 ^ r.size)) }
    {
        let reservation = self.get(id).unwrap();
        self.used.remove(frame_for(&reservation, page));
        self.used.is_empty(reservation.size, reservation.frame)
    }

    /// Splits the reservation that begins at the frame `id` into its eight parts: those with a used place are reservations
    /// of the same stamp from then on, and the frames of the others are in none.
    pub fn split(&mut self, id: u32) -> [Part; 8]
        requires { IsSomeAnd (reservation_at self.old id) (λ r. 0 < r.size) }
        ensures parts { IfSome (reservation_at self.old id)
            (λ r. result ≡ told_parts (is_used self.old.used) r) }
        ensures records { IfSome (reservation_at self.old id)
            (λ r. self.new.records ≡ split_records (is_used self.old.used) r self.old.records) }
        ensures used { self.new.used ≡ self.old.used }
    {
        let whole = self.get(id).unwrap();
        let parts = self.used.parts(&whole);
        self.records[id as usize] = Record::NONE;
        write_parts(
            self.records.as_mut_slice(),
            self.ids.as_mut_slice(),
            &self.used,
            &whole,
        );
        parts
    }

    /// Removes the reservation that begins at the frame `id`, which has no used place.
    pub fn dissolve(&mut self, id: u32)
        requires { IsSomeAnd (reservation_at self.old id)
            (λ r. none_used (is_used self.old.used) r.frame (8 ^ r.size) ≡ true) }
        ensures { self.new ≡ with_record self.old id None }
    {
        let reservation = self.get(id).unwrap();
        write(
            self.records.as_mut_slice(),
            self.ids.as_mut_slice(),
            id,
            reservation.size,
            None,
        );
    }
}

/// The frame that a reservation joins to a page of it.
pub fn frame_for(reservation: &Reservation, page: u32) -> u32
    requires page { CoversPage reservation.now page }
    requires frames { IsExtent reservation.now.size reservation.now.frame }
    ensures { result ≡ frame_for page reservation.now }
{
    reservation.frame + (page - reservation.first)
}

/// The first frame of the reservation, if there is one.
fn first_frame(reservation: &Option<Reservation>) -> OptionalIndex
    requires { IfSome reservation.now (λ r. r.frame < no_index) }
    ensures { result ≡ first_frame reservation.now }
{
    match reservation {
        Some(reservation) => OptionalIndex::of(reservation.frame),
        None => OptionalIndex::NONE,
    }
}

/// Notes that this reservation, or none, begins at the frame `first` and has the frames of an extent from there on.
fn write(
    records: &mut [Record],
    ids: &mut [OptionalIndex],
    first: u32,
    size: Size,
    reservation: Option<Reservation>,
)
    requires known { first < length records.old }
    requires inside { first + 8 ^ size ≤ length ids.old }
    requires numbered { IfSome reservation (λ r. r.frame < no_index) }
    ensures records { records.new ≡ slice_set records.old first reservation }
    ensures ids { IsFilled ids.old ids.new first (8 ^ size) (first_frame reservation) }
{
    let id = first_frame(&reservation);
    records[first as usize] = Record::of(reservation);
    for frame in first as usize..first as usize + size.pages() as usize {
        ids[frame] = id;
    }
}

/// The part of the reservation, where it has a used place and stays a reservation.
fn kept_part(used: &UsedPlaces, whole: &Reservation, i: u32) -> Option<Reservation>
    requires placed { IsPlaced (length used.now) whole.now.frame whole.now }
    requires splits { 0 < whole.now.size }
    requires one { i < 8 }
    ensures { result ≡ kept_part (is_used used.now) whole.now i }
{
    let part = used.part(whole, i);
    if part.empty {
        return None;
    }
    Some(Reservation {
        first: whole.first + i * part.extent.size.pages(),
        size: part.extent.size,
        frame: part.extent.first,
        ..*whole
    })
}

/// Notes the parts of the reservation, which isn't noted any more, as reservations where they have a used place.
fn write_parts(
    records: &mut [Record],
    ids: &mut [OptionalIndex],
    used: &UsedPlaces,
    whole: &Reservation,
)
    requires splits { 0 < whole.now.size }
    requires whole_placed { IsPlaced (length used.now) whole.now.frame whole.now }
    requires numbered { length used.now ≤ no_index }
    requires records_long { length records.old ≡ length used.now }
    requires ids_long { length ids.old ≡ length used.now }
    requires placed { ArePlaced records.old }
    requires noted { AreNoted records.old ids.old used.now
        whole.now.frame (whole.now.frame + 8 ^ whole.now.size) }
    ensures records { records.new ≡ split_records (is_used used.now) whole.now records.old }
    ensures placed { ArePlaced records.new }
    ensures noted { AreNoted records.new ids.new used.now 0 0 }
{
    let size = whole.size.smaller();
    for i in 0..8 {
        let first = whole.frame + i * size.pages();
        write(records, ids, first, size, kept_part(used, whole, i));
    }
}
