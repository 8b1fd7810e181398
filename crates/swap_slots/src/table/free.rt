//! The set of free slots. Each call has a counter of steps of its own.

ghost use Rattle.std.specs.Prelude.{◌≡◌, ℕ, ◌<◌, ◌≤◌, false, true, nat_lt, length, slice_index_or, slice_set, IfOk, IfSome};
ghost use Rattle.bit_set.specs.Bits.{IsFirstFrom, most_bound};
ghost use Rattle.swap_slots.specs.FreeSlots.{with_slot};
ghost use Rattle.swap_slots.specs.Slots.{slot_in};

use super::PageCopy;
use bit_set::BitSet;
use pager_model::Steps;
use std::alloc::{AllocError, Global};
use std::marker::Brand;
use std::sync::ledger::{Blank, Ledger};

/// The set of this many slots, all free.
pub(super) fn all_free(alloc: Global, count: u32) -> Result<BitSet, AllocError>
    requires { count ≤ most_bound }
    ensures wide { IfOk result (λ free. count ≤ length free) }
    ensures bits { IfOk result (λ free. (s : ℕ) → slice_index_or free s false ≡ nat_lt s count) }
{
    let mut free = BitSet::create(alloc, count.div_ceil(64) * 64)?;
    for slot in 0..count {
        write_bit(&mut free, slot, true);
    }
    Ok(free)
}

/// Whether the slot is free.
pub(super) fn is_free(free: &BitSet, slot: u32) -> bool
    ensures { result ≡ slice_index_or free.now slot false }
{
    is_free_counted::<Brand>(free, slot, Blank::new(1))
}

fn is_free_counted<L: Ledger>(free: &BitSet, slot: u32, blank: Blank) -> bool
    requires name { blank.name ≡ L.name }
    requires parts { blank.parts ≡ L.parts }
    requires share { 0 < blank.parts }
    ensures { result ≡ slice_index_or free.now slot false }
{
    let (book, share) = blank.open::<L>();
    free.has(slot, &mut Steps::begin(book, share))
}

/// The lowest slot that is free.
pub(super) fn lowest(free: &BitSet) -> Option<u32>
    ensures { IsFirstFrom free.now 0 result }
{
    lowest_counted::<Brand>(free, Blank::new(1))
}

fn lowest_counted<L: Ledger>(free: &BitSet, blank: Blank) -> Option<u32>
    requires name { blank.name ≡ L.name }
    requires parts { blank.parts ≡ L.parts }
    requires share { 0 < blank.parts }
    ensures { IsFirstFrom free.now 0 result }
{
    let (book, share) = blank.open::<L>();
    free.first_from(0, &mut Steps::begin(book, share))
}

/// Makes the slot of a copy free, or not, if it is in one.
pub(super) fn write_slot(free: &mut BitSet, copy: PageCopy, is_free: bool)
    requires { IfSome (slot_in copy) (λ s. s < length free.old) }
    ensures { free.new ≡ with_slot free.old copy is_free }
{
    if let PageCopy::Slot(slot) = copy {
        write_bit(free, slot, is_free);
    }
}

fn write_bit(free: &mut BitSet, slot: u32, is_free: bool)
    requires { slot < length free.old }
    ensures { free.new ≡ slice_set free.old slot is_free }
{
    write_bit_counted::<Brand>(free, slot, is_free, Blank::new(1));
}

fn write_bit_counted<L: Ledger>(free: &mut BitSet, slot: u32, is_free: bool, blank: Blank)
    requires name { blank.name ≡ L.name }
    requires parts { blank.parts ≡ L.parts }
    requires share { 0 < blank.parts }
    requires slot { slot < length free.old }
    ensures { free.new ≡ slice_set free.old slot is_free }
{
    let (book, share) = blank.open::<L>();
    let steps = &mut Steps::begin(book, share);
    if is_free {
        free.insert(slot, steps);
    } else {
        free.remove(slot, steps);
    }
}
