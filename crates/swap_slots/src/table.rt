//! Which slot each page has, and which slots are free.

ghost use Rattle.std.specs.Prelude.{◌≡◌, ◌≢◌, ℕ, ◌+◌, ◌-◌, ◌<◌, ◌≤◌, false, true, [], ◌++◌, length, replicate, slice_set, if◌then◌else◌, vec_capacity, IfOk, IfSome, IfNone};
ghost use Rattle.std.specs.List.{list_all};
ghost use Rattle.bit_set.specs.Bits.{most_bound};
ghost use Rattle.pager_model.specs.Bounds.{space_pages};
ghost use Rattle.pager_model.specs.Regions.{in_range};
ghost use Rattle.swap_slots.specs.SlotState.{is_zero};
ghost use Rattle.swap_slots.specs.Slots.{Slots, copy_of, slot_in, free_count, HaveOwnSlots, IsSlotFor, LacksSlot, SetsPage};

mod free;

use bit_set::BitSet;
use pager_model::{NoMemory, PAGES};
use std::alloc::Global;
use std::marker::Model;

/// Where the copy of a page is.
#[derive(Clone, Copy, PartialEq, Eq)]
pub enum PageCopy {
    /// It is zero, and needs no slot.
    Zero,
    /// It is unknown, since a write of it failed.
    Lost,
    /// It is the words of this slot.
    Slot(u32),
}

/// Where the copy of each page of a space is, and which slots are free.
#[derive(Drop)]
pub(crate) struct SlotTable {
    /// Of the pages up to the last one that ever had a copy; that of any other is zero. There is room for all pages from the start.
    pages: Vec<PageCopy>,
    free: BitSet,
    count: u32,
}

impl Model for SlotTable {
    ghost use Rattle.std.specs.Prelude.{◌≤◌, length, vec_capacity};
    ghost use Rattle.pager_model.specs.Bounds.{space_pages};
    ghost use Rattle.swap_slots.specs.FreeSlots.{AreSlots};
    ghost use Rattle.swap_slots.specs.Slots.{Slots};

    ghost Value = { Slots };

    ghost view = { λ t. record { count = t.count; pages = t.pages.items } };

    ghost invariant = { λ t. AreSlots (record { count = t.count; pages = t.pages.items }) t.free
        × (space_pages ≤ vec_capacity t.pages) × (length t.pages.items ≤ space_pages) };
}

impl SlotTable {
    /// All pages zero, and all of this many slots free. Its memory is all that it ever takes.
    pub(crate) fn create(alloc: Global, count: u32) -> Result<SlotTable, NoMemory>
        requires { count ≤ most_bound }
        ensures { IfOk result (λ table. table ≡ record { count = count; pages = [] }) }
    {
        let pages = Vec::with_capacity(alloc, PAGES as usize)?;
        let free = free::all_free(alloc, count)?;
        Ok(SlotTable { pages, free, count })
    }

    /// Where the copy of a page is.
    pub(crate) fn copy_of(&self, page: u32) -> PageCopy
        ensures copy { result ≡ copy_of self.now page }
        ensures there { IfSome (slot_in result) (λ s. s < self.now.count) }
        ensures own { HaveOwnSlots self.now }
    {
        self.pages
            .get(page as usize)
            .copied()
            .unwrap_or(PageCopy::Zero)
    }

    /// Whether each page is zero.
    pub(crate) fn is_zero(&self) -> bool
        ensures { result ≡ list_all is_zero self.now.pages }
    {
        self.pages.iter().all(|copy| matches!(copy, PageCopy::Zero))
    }

    /// The slot for a write of a page: its own, else the lowest free one.
    pub(crate) fn slot_for(&self, page: u32) -> Option<u32>
        ensures slot { IfSome result (IsSlotFor self.now page) }
        ensures there { IfSome result (λ s. s < self.now.count) }
        ensures none { IfNone result (LacksSlot self.now page) }
        ensures own { HaveOwnSlots self.now }
    {
        match self.copy_of(page) {
            PageCopy::Slot(slot) => Some(slot),
            PageCopy::Zero | PageCopy::Lost => free::lowest(&self.free),
        }
    }

    /// How many slots are free.
    pub(crate) fn free_count(&self) -> u32
        ensures { result ≡ free_count self.now }
    {
        let mut count = 0;
        for slot in 0..self.count {
            if free::is_free(&self.free, slot) {
                count += 1;
            }
        }
        count
    }

    /// Says where the copy of a page is now. A slot that it had before is free then, unless it has it still.
    pub(crate) fn set(&mut self, page: u32, copy: PageCopy)
        requires page { page < space_pages }
        requires there { IfSome (slot_in copy) (λ s. s < self.old.count) }
        requires apart { IfSome (slot_in copy) (λ s. (p : ℕ) → p ≢ page → slot_in (copy_of self.old p) ≢ Some s) }
        ensures set { SetsPage page copy self.old self.new }
        ensures own { HaveOwnSlots self.new }
    {
        let before = self.copy_of(page);
        free::write_slot(&mut self.free, before, true);
        free::write_slot(&mut self.free, copy, false);
        set_copy(&mut self.pages, page, copy);
    }

    /// Makes the pages of a range zero, and their slots free.
    pub(crate) fn drop_range(&mut self, first: u32, length: u32)
        ensures count { self.new.count ≡ self.old.count }
        ensures copies { (p : ℕ) → copy_of self.new p ≡ (if in_range first length p then PageCopy.Zero else copy_of self.old p) }
        ensures own { HaveOwnSlots self.new }
    {
        let end = self.len().min(first.saturating_add(length));
        for page in first..end {
            self.set(page, PageCopy::Zero);
        }
    }

    /// How many pages it lists.
    fn len(&self) -> u32
        ensures count { result ≡ length self.now.pages }
        ensures most { result ≤ space_pages }
        ensures own { HaveOwnSlots self.now }
    {
        self.pages.len() as u32
    }
}

/// Writes where the copy of a page is, over a list with room for all pages.
fn set_copy(pages: &mut Vec<PageCopy>, page: u32, copy: PageCopy)
    requires page { page < space_pages }
    requires room { space_pages ≤ vec_capacity pages.old }
    requires few { length pages.old.items ≤ space_pages }
    ensures set { pages.new.items
        ≡ slice_set (pages.old.items ++ replicate (page + 1 - length pages.old.items) PageCopy.Zero) page copy }
    ensures still_room { space_pages ≤ vec_capacity pages.new }
    ensures still_few { length pages.new.items ≤ space_pages }
{
    let at = page as usize;
    if pages.len() <= at {
        grow(pages, at + 1);
    }
    pages[at] = copy;
}

/// Lists the pages below this one, with those that are new zero.
fn grow(pages: &mut Vec<PageCopy>, end: usize)
    requires end { end ≤ space_pages }
    requires longer { length pages.old.items ≤ end }
    requires room { space_pages ≤ vec_capacity pages.old }
    ensures grown { pages.new.items ≡ pages.old.items ++ replicate (end - length pages.old.items) PageCopy.Zero }
    ensures still_room { space_pages ≤ vec_capacity pages.new }
{
    let Ok(()) = pages.resize(end, PageCopy::Zero) else {
        unreachable!()
    };
}
