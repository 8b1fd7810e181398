//! A space: what there is, and its pages read in and written out. Its calls stand in the modules below: how each begins, and how one ends that needed
//! something first.

ghost use Rattle.std.specs.Prelude.{◌≡◌, ◌≢◌, ◌∷◌, [], length, map, ℕ, ◌<◌, Bool, true, false, Some, None, IfOk, IfErr, IsSome};
ghost use Rattle.pager_model.specs.Images.{still_tiles};
ghost use Rattle.pager_model.specs.Regions.{region_at, rights_by};
ghost use Rattle.pager_model.specs.Tiles.{tile_count_in};
ghost use Rattle.pager_model.specs.SpaceStates.{empty_state};
ghost use Rattle.pager_model.specs.Stored.{TellsZero};
ghost use Rattle.space_core.specs.Beginning.{IsMappedBy, Places, ReadsIn, FailsToRead, WritesOut, FailsToWrite, LeavesUnwritten, Removes, copied_reply};
ghost use Rattle.space_core.specs.Pages.{Maps};
ghost use Rattle.space_core.specs.Saving.{Saves, FailsToSave, LacksRoom};
ghost use Rattle.space_core.specs.Standing.{Kept, StandsFor, IsResting, frame_at, dirty_at, one_more_if};
ghost use Rattle.space_core.specs.Tables.{mapping_in, own_in};
ghost use Rattle.space_core.specs.Translating.{counted_up, untouched_tiles, Retouches, ChangesPages, CleansPage};
ghost use Rattle.pager_model.specs.Bounds.{space_pages, most_spaces};

mod begin;
mod ends;

use crate::room::SpaceRoom;
use crate::table::PageTable;
use pager_model::{Answered, Frame, Mapping, PageRange, Region, Reply, Rights, Want};
use region_table::Regions;
use std::marker::Model;
use store_core::{Store, StoreFailed, WriteRefused};
use tiles::{Moves, Translation};
use tlb_images::Images;

/// What a call needs first.
#[derive(Clone, Copy, Debug, PartialEq, Eq)]
pub enum Begun {
    /// The whole answer, with its effect.
    Answered(Answered),
    /// A lawful load or store, whose page isn't resident.
    NeedsFrame {
        page: u32,
        want: Want,
    },
    /// An unmap, whose region's pages have to give their frames up, or a discard, whose range's have to.
    NeedsClear {
        first: u32,
        length: u32,
    },
    /// A wire or an unwire, whose region's frames have to be wired, or to be so no longer.
    NeedsPin {
        first: u32,
        length: u32,
        wired: bool,
    },
    /// An evict of a page that has to give its frame up, and whose copy was written where it was dirty.
    NeedsEvict {
        page: u32,
    },
    /// A sync or an evict, where writing the page's copy failed; the store's count of faults is this now.
    Failed {
        page: u32,
        count: u64,
    },
}

/// What there is at the page of a load or a store.
#[derive(Clone, Copy)]
pub(crate) enum Lookup {
    /// The access is refused, for this.
    Refused(Reply),
    /// The access is allowed, and the page isn't resident; its region wants this of a frame for it.
    Absent(Want),
    /// The access is allowed, and the page is resident and mapped by this.
    Resident(Translation),
}

/// Why a page was not paged out: it stays resident and dirty.
#[derive(Clone, Copy, Debug, PartialEq, Eq)]
pub enum OutFault {
    /// Writing its copy failed, and the store's count of faults is this now.
    Failed { count: u64 },
    /// There was no memory for its copy.
    NoMemory,
}

/// A space of 1,048,576 pages, over a store of their copies.
#[derive(Drop)]
pub struct Space<S: Store + Send + Drop> {
    number: u32,
    ghost few: { number < most_spaces },
    regions: Regions,
    table: PageTable,
    /// The page that was placed and is not yet read in.
    pending: Option<u32>,
    /// The range whose pages give their frames up.
    clearing: Option<PageRange>,
    /// None of that range's pages before this one is resident.
    scan: u32,
    /// The page that is being evicted: it is equal to its copy, and gives its frame up next.
    paged: Option<u32>,
    store: S,
    /// For each processor the tiles that it used last.
    images: Images,
    promotions: u64,
    demotions: u64,
    /// How many large tiles met that range when its clearing began.
    broken: u32,
}

impl<S: Store + Send + Drop> Model for Space<S> {
    ghost use Rattle.std.specs.Prelude.{length};
    ghost use Rattle.space_core.specs.Keeping.{IsKept};
    ghost use Rattle.space_core.specs.Standing.{Kept};

    ghost Value = { Kept };

    ghost view = { λ s. record {
      number = s.number;
      frames = length s.table.frames;
      regions = s.regions;
      table = s.table;
      pending = s.pending;
      clearing = s.clearing;
      paged = s.paged;
      store = S.seen s.store;
      reads = S.reads s.store;
      writes = S.writes s.store;
      images = s.images;
      promotions = s.promotions;
      demotions = s.demotions;
      broken = s.broken;
    } };

    ghost invariant = { λ s. IsKept s.regions s.table s.pending s.clearing s.scan };
}

impl<S: Store + Send + Drop> Space<S> {
    /// A space without regions, in this room, with its page sizes, and over this store. It takes no memory.
    pub fn over(number: u32, room: SpaceRoom, store: S) -> Space<S>
        requires few { number < most_spaces }
        ensures made { (result.number ≡ number) × (result.frames ≡ room.frames) × (length result.images ≡ room.processors) × (result.store ≡ S.seen store) × IsResting result }
        ensures unread { result.reads ≡ S.reads store }
        ensures unwritten { result.writes ≡ S.writes store }
        ensures stands { (told : Bool) → (told ≡ true → TellsZero result.store) → StandsFor result (empty_state room.sizes told result.store.faults) }
    {
        let (table, images) = room.into_parts();
        Space {
            number,
            regions: Regions::create(),
            table,
            pending: None,
            clearing: None,
            scan: 0,
            paged: None,
            store,
            images,
            promotions: 0,
            demotions: 0,
            broken: 0,
        }
    }

    /// Its number among the program's spaces.
    pub fn number(&self) -> u32
        ensures number { result ≡ self.now.number }
        ensures few { result < most_spaces }
    {
        self.number
    }

    /// The frame of a page, where it is resident.
    pub fn resident(&self, page: u32) -> Option<u32>
        ensures { result ≡ frame_at self.now page }
    {
        self.table.number(page)
    }

    /// How many tiles there are of each size.
    pub fn tile_counts(&self) -> [u32; 4]
        ensures { result ≡ tile_count_in self.now.table.sizes (mapping_in self.now.table) 0
            ∷ tile_count_in self.now.table.sizes (mapping_in self.now.table) 1
            ∷ tile_count_in self.now.table.sizes (mapping_in self.now.table) 2
            ∷ tile_count_in self.now.table.sizes (mapping_in self.now.table) 3 ∷ [] }
    {
        self.table.tile_counts()
    }

    /// How many promotions and demotions there were; each count stands still at its type's end.
    pub fn moves(&self) -> (u64, u64)
        ensures { result ≡ (self.now.promotions, self.now.demotions) }
    {
        (self.promotions, self.demotions)
    }

    /// The store of its copies.
    pub fn into_store(self) -> S
        ensures { S.seen result ≡ self.store }
    {
        self.store
    }

    /// Puts a frame under a page that isn't resident. No other page has a frame of this number.
    pub fn map_page(&mut self, page: u32, frame: Frame)
        requires page { page < space_pages }
        requires region { IsSome (region_at self.old.regions page) }
        requires absent { frame_at self.old page ≡ None }
        requires resting { IsResting self.old }
        requires known { frame.number < self.old.frames }
        requires other { (p : ℕ) → frame_at self.old p ≢ Some frame.number }
        ensures { Places self.old self.new page frame.number }
    {
        let Some(region) = self.regions.find(page) else {
            unreachable!()
        };
        let rights = self.rights(page, region);
        let moves = self.table.put(page, frame, region.first, rights);
        self.pending = Some(page);
        self.follow(moves);
    }

    /// Reads the copy of the pending page in, and tells what the page is mapped by. Where the store's read fails, the error is its count of
    /// faults, and the page stays pending.
    pub fn read_in(&mut self, page: u32) -> Result<Translation, u64>
        requires pending { self.old.pending ≡ Some page }
        requires resident { frame_at self.old page ≢ None }
        ensures read { IfOk result (λ _. ReadsIn self.old self.new) }
        ensures found { IfOk result (IsMappedBy self.new page) }
        ensures failed { IfErr result (λ count. FailsToRead self.old self.new page count) }
    {
        let Some(found) = self.table.translate(page) else {
            unreachable!()
        };
        match self
            .table
            .read_copy(page, found.mapping.frame, &mut self.store)
        {
            Ok(()) => {
                self.pending = None;
                Ok(found)
            }
            Err(StoreFailed) => Err(self.store.faults()),
        }
    }

    /// Makes a resident page equal to its copy, and tells whether it was dirty and its copy was written, once.
    pub fn write_out(&mut self, page: u32) -> Result<bool, OutFault>
        requires resting { IsResting self.old }
        requires resident { frame_at self.old page ≢ None }
        ensures written { IfOk result (λ written. WritesOut self.old self.new page written) }
        ensures failed { (count : ℕ) → result ≡ Err (OutFault.Failed count) → FailsToWrite self.old self.new page count }
        ensures no_memory { result ≡ Err OutFault.NoMemory → LeavesUnwritten self.old self.new page }
        ensures lasting { result ≡ Err OutFault.NoMemory → S.lasts ≡ false }
        ensures writes { self.new.writes ≡ one_more_if (dirty_at self.old page) self.old.writes }
    {
        self.copy_out(page)
    }

    /// Takes the frame of a clean page away.
    pub fn remove(&mut self, page: u32) -> Frame
        requires resident { frame_at self.old page ≢ None }
        requires clean { dirty_at self.old page ≡ false }
        requires none_clearing { self.old.clearing ≡ None }
        requires none_paged { self.old.paged ≡ None }
        requires no_other_pending { (p : ℕ) → self.old.pending ≡ Some p → p ≡ page }
        ensures { Removes self.old self.new page result.number }
    {
        self.pending = None;
        self.take(page)
    }

    /// Makes a page equal to its copy, which is written where the page is dirty, and tells whether it was. A page that wasn't is clean as it is.
    fn copy_out(&mut self, page: u32) -> Result<bool, OutFault>
        ensures copied { IfOk result (λ written. (saved : Kept) × Saves self.old saved page written × CleansPage saved self.new page) }
        ensures failed { (count : ℕ) → result ≡ Err (OutFault.Failed count) → FailsToSave self.old self.new page count }
        ensures no_memory { result ≡ Err OutFault.NoMemory → LacksRoom self.old self.new page }
        ensures lasting { result ≡ Err OutFault.NoMemory → S.lasts ≡ false }
        ensures writes { self.new.writes ≡ one_more_if (dirty_at self.old page) self.old.writes }
    {
        let Some(mapping) = self.table.mapping(page) else {
            return Ok(false);
        };
        let written = self.save(page, mapping)?;
        if written {
            let moves = self.table.set_clean(page);
            self.follow(moves);
        }
        Ok(written)
    }

    /// Writes the copy of a page that is mapped so, where it is dirty, tells whether it was, and leaves it so.
    fn save(&mut self, page: u32, mapping: Mapping) -> Result<bool, OutFault>
        requires in_space { page < space_pages }
        requires frame { frame_at self.old page ≡ Some mapping.frame }
        requires dirty { dirty_at self.old page ≡ mapping.dirty }
        ensures saved { IfOk result (λ written. Saves self.old self.new page written) }
        ensures failed { (count : ℕ) → result ≡ Err (OutFault.Failed count) → FailsToSave self.old self.new page count }
        ensures no_memory { result ≡ Err OutFault.NoMemory → LacksRoom self.old self.new page }
        ensures lasting { result ≡ Err OutFault.NoMemory → S.lasts ≡ false }
        ensures writes { self.new.writes ≡ one_more_if (dirty_at self.old page) self.old.writes }
    {
        if !mapping.dirty {
            return Ok(false);
        }
        match self.table.write_copy(page, mapping.frame, &mut self.store) {
            Ok(()) => Ok(true),
            Err(WriteRefused::Failed) => Err(OutFault::Failed {
                count: self.store.faults(),
            }),
            Err(WriteRefused::NoMemory) => Err(OutFault::NoMemory),
        }
    }

    /// Takes the frame of a resident page away.
    fn take(&mut self, page: u32) -> Frame
        requires { frame_at self.old page ≢ None }
        ensures taken { frame_at self.old page ≡ Some result.number }
        ensures maps { Maps page None self.old.table self.new.table }
        ensures retouched { Retouches self.old self.new }
        ensures same { ChangesPages self.old self.new }
    {
        let Some((frame, moves)) = self.table.take(page) else {
            unreachable!()
        };
        self.follow(moves);
        frame
    }

    /// The rights of a page of a region: its own, or else the region's first.
    fn rights(&self, page: u32, region: Region) -> Rights
        requires { page < space_pages }
        ensures { result ≡ rights_by (own_in self.now.table page) (Some region) }
    {
        self.table.own(page).unwrap_or(region.rights)
    }

    /// Counts the moves of a change of pages, after which each image keeps what they didn't touch, and what is a tile still.
    fn follow(&mut self, moves: Moves)
        ensures { self.new ≡ record self.old {
          images = map (untouched_tiles self.old.table.sizes moves.touched (mapping_in self.old.table)) self.old.images;
          promotions = counted_up self.old.promotions moves.promotions;
          demotions = counted_up self.old.demotions moves.demotions;
        } }
    {
        self.count(moves);
        keep_untouched(&mut self.images, &self.table, moves.touched);
    }

    /// Counts moves; each count stands still at its type's end.
    fn count(&mut self, moves: Moves)
        ensures { self.new ≡ record self.old {
          promotions = counted_up self.old.promotions moves.promotions;
          demotions = counted_up self.old.demotions moves.demotions;
        } }
    {
        self.promotions = self.promotions.saturating_add(u64::from(moves.promotions));
        self.demotions = self.demotions.saturating_add(u64::from(moves.demotions));
    }
}

/// Each image keeps what is a tile still.
fn keep_tiles(images: &mut Images, table: &PageTable)
    ensures { images.new ≡ map (still_tiles table.now.sizes (mapping_in table.now)) images.old }
{
    images.retain(|tile| table.is_tile(tile));
}

/// Each image keeps what begins outside of the range, which isn't asked about, and what is a tile still.
fn keep_untouched(images: &mut Images, table: &PageTable, range: PageRange)
    ensures { images.new ≡ map (untouched_tiles table.now.sizes range (mapping_in table.now)) images.old }
{
    images.retain_in(range, |tile| table.is_tile(tile));
}

/// Written where the page was dirty, and else clean.
fn copied(written: bool) -> Reply
    ensures { result ≡ copied_reply written }
{
    if written {
        Reply::Written
    } else {
        Reply::Clean
    }
}
