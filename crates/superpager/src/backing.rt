//! Where the copies of pages are kept, by the program's words.

ghost use Rattle.std.specs.Prelude.{◌≡◌, ◌≢◌, ◌≤◌, ℕ, List, All, IfOk, IfSome, IfNone, decimal, length};
ghost use Rattle.std.specs.Borrow.{Bor};
ghost use Rattle.pager_model.specs.Bounds.{most_spaces};
ghost use Rattle.pager_command.specs.Forms.{are_of};
ghost use Rattle.superpager.specs.Asked.{AsksFolder, AsksSlots};
ghost use Rattle.superpager.specs.NewStores.{IsNewFile, IsNewMemory, IsNewSlots};

use pager_command::small_number_of;
use pager_model::{MOST_SPACES, NoMemory};
use std::alloc::{AllocError, Global};
use std::fs::File;
use std::rt::Files;
use store_core::MemoryStore;
use store_file::FileStore;
use swap_slots::{MemoryBlocks, SlotStore};

/// The most slots of a space.
const MOST_SLOTS: u32 = 4096;

/// Where the copies of pages are kept.
#[derive(Clone, Copy)]
pub enum Backing<'a> {
    /// In memory.
    Memory,
    /// In files of this folder, one for each space.
    Folder(&'a str),
    /// In this many slots for each space.
    Slots(u32),
}

/// Where the words ask for the copies to be kept, and the words of the command: those behind `--folder DIR` or `--swap N` where they begin
/// so, and else all of them.
pub fn stores_of<'a>(words: &'a [&'a str]) -> (Backing<'a>, &'a [&'a str])
    ensures folder { (folder : Bor (List ℕ)) → result.0 ≡ Backing.Folder folder → AsksFolder words.now folder.now (are_of result.1.now) }
    ensures slots { (slots : ℕ) → result.0 ≡ Backing.Slots slots → AsksSlots words.now slots (are_of result.1.now) }
    ensures memory { result.0 ≡ Backing.Memory → result.1.now ≡ words.now }
    ensures no_folder { result.0 ≡ Backing.Memory → (folder : List ℕ) (rest : List (List ℕ)) → AsksFolder words.now folder rest → ⊥ }
    ensures no_slots { result.0 ≡ Backing.Memory → (slots : ℕ) (rest : List (List ℕ)) → AsksSlots words.now slots rest → ⊥ }
{
    match words {
        [word, folder, rest @ ..] if *word == "--folder" => (Backing::Folder(folder), rest),
        [word, count, rest @ ..] if *word == "--swap" => match slots_of(count) {
            Some(slots) => (Backing::Slots(slots), rest),
            None => (Backing::Memory, words),
        },
        _ => (Backing::Memory, words),
    }
}

/// The number of slots that a word names, from 1 to the most.
fn slots_of(word: &str) -> Option<u32>
    ensures some { IfSome result (λ slots. (word.now ≡ decimal slots) × (1 ≤ slots) × (slots ≤ 4096)) }
    ensures none { IfNone result ((slots : ℕ) → 1 ≤ slots → slots ≤ 4096 → word.now ≢ decimal slots) }
{
    let slots = small_number_of(word)?;
    if slots == 0 || slots > MOST_SLOTS {
        return None;
    }
    Some(slots)
}

/// A store in memory for each space that a trace may have, with no copy yet. None of them is to fail.
pub fn memory_stores(alloc: Global) -> Result<Vec<MemoryStore>, AllocError>
    ensures count { IfOk result (λ stores. length stores.items ≡ most_spaces) }
    ensures new { IfOk result (λ stores. All IsNewMemory stores.items) }
{
    let mut stores = Vec::with_capacity(alloc, MOST_SPACES as usize)?;
    for _ in 0..MOST_SPACES {
        let store = MemoryStore::of(alloc, Vec::new(alloc), Vec::new(alloc));
        stores.push(store)?;
    }
    Ok(stores)
}

/// A store in a file of the folder for each space that a trace may have, with no copy yet.
pub fn file_stores<R: Files<File = File>>(
    rt: &R,
    alloc: Global,
    folder: &str,
) -> Result<Vec<FileStore<File>>, NoMemory>
    ensures count { IfOk result (λ stores. length stores.items ≡ most_spaces) }
    ensures new { IfOk result (λ stores. All IsNewFile stores.items) }
{
    let mut stores = Vec::with_capacity(alloc, MOST_SPACES as usize)?;
    for number in 0..MOST_SPACES {
        let store = FileStore::create(rt, alloc, folder, number)?;
        stores.push(store)?;
    }
    Ok(stores)
}

/// A store over so many slots in memory for each space that a trace may have, with no copy yet.
pub fn slot_stores(alloc: Global, slots: u32) -> Result<Vec<SlotStore<MemoryBlocks>>, NoMemory>
    ensures count { IfOk result (λ stores. length stores.items ≡ most_spaces) }
    ensures new { IfOk result (λ stores. All (IsNewSlots slots) stores.items) }
{
    let mut stores = Vec::with_capacity(alloc, MOST_SPACES as usize)?;
    for _ in 0..MOST_SPACES {
        let blocks = MemoryBlocks::create(alloc, slots, Vec::new(alloc), Vec::new(alloc))?;
        let Ok(store) = SlotStore::create(alloc, blocks) else {
            return Err(NoMemory);
        };
        stores.push(store)?;
    }
    Ok(stores)
}
