//! A store in memory and one over two slots, in rows of calls of which some fail.

use super::NO_MEMORY;
use std::alloc::Global;
use std::process::Abort;
use store_core::{Copied, MemoryStore, Store, StoreFailed, WriteRefused};
use swap_slots::{MemoryBlocks, SlotStore};

/// A call: `w` writes an image to a page, `r` reads one from it, `d` drops so many pages from it on, and `t` asks whether the store tells that
/// all are zero. Then the page; the image's number, which is 0 for zero words; what the call answers; and how many faults the store has then.
type Row = (char, u32, u32, &'static str, u64);

/// The second read and the second write fail.
static IN_MEMORY: [Row; 13] = [
    ('t', 0, 0, "zero", 0),
    ('r', 5, 0, "ok", 0),
    ('w', 5, 1, "ok", 0),
    ('r', 5, 1, "failed", 1),
    ('r', 5, 1, "ok", 1),
    ('w', 5, 2, "failed", 2),
    ('d', 6, 9, "ok", 2),
    ('t', 0, 0, "others", 2),
    ('w', 5, 3, "ok", 2),
    ('r', 5, 3, "ok", 2),
    ('d', 0, 6, "ok", 2),
    ('r', 5, 0, "ok", 2),
    ('t', 0, 0, "zero", 2),
];

/// The device's second read and its fourth write fail. A page without a slot is not read from it, and a write that finds no slot is not one of
/// its writes.
static OVER_SLOTS: [Row; 18] = [
    ('t', 0, 0, "zero", 0),
    ('w', 5, 1, "ok", 0),
    ('w', 9, 2, "ok", 0),
    ('w', 7, 3, "failed", 1),
    ('r', 7, 0, "ok", 1),
    ('r', 5, 1, "ok", 1),
    ('r', 9, 2, "failed", 2),
    ('w', 5, 4, "ok", 2),
    ('w', 5, 5, "failed", 3),
    ('r', 5, 0, "ok", 3),
    ('w', 7, 6, "ok", 3),
    ('r', 7, 6, "ok", 3),
    ('d', 9, 1, "ok", 3),
    ('w', 1048575, 7, "ok", 3),
    ('w', 1048576, 8, "nomemory", 3),
    ('d', 0, 9, "ok", 3),
    ('r', 1048575, 7, "ok", 3),
    ('t', 0, 0, "others", 3),
];

/// Words that differ from place to place, and from number to number. Those of 0 are zero.
fn image(number: u32) -> [u64; 1024] {
    let mut words = [0; 1024];
    let mut word = u64::from(number);
    for place in &mut words {
        *place = word;
        word = word.wrapping_mul(3);
    }
    words
}

fn wrote<S: Store>(store: &mut S, page: u32, number: u32) -> &'static str {
    match store.write(page, &image(number)) {
        Ok(()) => "ok",
        Err(WriteRefused::Failed) => "failed",
        Err(WriteRefused::NoMemory) => "nomemory",
    }
}

fn read<S: Store>(store: &mut S, page: u32, number: u32) -> &'static str {
    let mut words = [5; 1024];
    match store.read(page, &mut words) {
        Err(StoreFailed) => "failed",
        Ok(Copied::Words) if words == image(number) => "ok",
        Ok(Copied::Zeros) if number == 0 => "ok",
        Ok(_) => "other words",
    }
}

/// What a call of a row answers.
fn answer<S: Store>(store: &mut S, row: &Row) -> &'static str {
    let (call, page, number, _, _) = *row;
    match call {
        'w' => wrote(store, page, number),
        'r' => read(store, page, number),
        't' if store.told() => "zero",
        't' => "others",
        _ => {
            store.drop_pages(page, number);
            "ok"
        }
    }
}

/// Whether a store answers each row.
fn answers_all<S: Store>(store: &mut S, rows: &[Row]) -> bool {
    for row in rows {
        if answer(store, row) != row.3 || store.faults() != row.4 {
            return false;
        }
    }
    true
}

/// A store in memory whose second read and second write fail.
fn in_memory(rt: &impl Abort, alloc: Global) -> MemoryStore {
    let reads = [2].to_vec(alloc).expect(rt, NO_MEMORY);
    let writes = [2].to_vec(alloc).expect(rt, NO_MEMORY);
    MemoryStore::of(alloc, reads, writes)
}

#[test]
fn a_store_in_memory_answers_each_row(rt: HostRuntime) {
    assert!(rt; answers_all(&mut in_memory(&rt, rt.alloc()), &IN_MEMORY));
}

/// A store over two slots of a device whose second read and fourth write fail.
fn over_slots(rt: &impl Abort, alloc: Global) -> SlotStore<MemoryBlocks> {
    let reads = [2].to_vec(alloc).expect(rt, NO_MEMORY);
    let writes = [4].to_vec(alloc).expect(rt, NO_MEMORY);
    let blocks = MemoryBlocks::create(alloc, 2, reads, writes).expect(rt, NO_MEMORY);
    SlotStore::create(alloc, blocks).ok().expect(rt, NO_MEMORY)
}

/// Whether it answers each row, the slot of the last page then, and how many slots are free.
fn answers_over_slots(rt: &impl Abort, alloc: Global) -> (bool, Option<u32>, u32) {
    let mut store = over_slots(rt, alloc);
    let alike = answers_all(&mut store, &OVER_SLOTS);
    (alike, store.slot_of(1048575), store.free_slots())
}

#[test]
fn a_store_over_slots_answers_each_row(rt: HostRuntime) {
    assert!(rt; answers_over_slots(&rt, rt.alloc()) == (true, Some(1), 1));
}
