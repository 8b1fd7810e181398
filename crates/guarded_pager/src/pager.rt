//! The pager, and its tests.

ghost use Rattle.std.specs.Prelude.{◌≡◌, ℕ, true, IfErr, IfOk, IsTrue, List, Some, [], if◌then◌else◌, map, replicate};
ghost use Rattle.std.specs.Result.{result_err};
ghost use Rattle.pager_model.specs.declared.call.Call.TheVariants.{Store};
ghost use Rattle.pager_model.specs.declared.call.Line.{Line as CallLine};
ghost use Rattle.pager_model.specs.declared.entry.Entry.{Entry};
ghost use Rattle.pager_model.specs.Counts.{counts};
ghost use Rattle.pager_model.specs.Scripts.{Script};
ghost use Rattle.pager_model.specs.Stored.{Stored};
ghost use Rattle.pager_model.specs.Stores.{setting_over};
ghost use Rattle.pager_model.specs.TraceText.{IsCall};
ghost use Rattle.store_core.specs.MemoryState.{stored_of};
ghost use Rattle.live_pager.specs.Live.{IsLive, script_of};
ghost use Rattle.guarded_pager.specs.Guards.{Tells, call_refusal, is_call, is_page, is_range, is_setting, is_word, zero_store};

use crate::refusal::Refusal;
use live_pager::{LivePager, Told};
use pager_model::{Call, Line, MOST_FRAMES, MOST_PROCESSORS, MOST_SPACES, PAGES, Sizes, Summary};
use std::alloc::{AllocError, Global};
use std::marker::Model;
use store_core::MemoryStore;

/// At most so many calls are made.
const MOST_CALLS_MADE: u32 = 4_294_967_295;

/// The bytes of a space.
const SPACE_BYTES: u64 = 8_589_934_592;

/// A live pager whose calls test what they are passed, over stores in memory.
#[derive(Drop)]
pub struct GuardedPager {
    pager: LivePager<MemoryStore>,
}

impl Model for GuardedPager {
    ghost use Rattle.stream_core.specs.Streaming.{Streaming};

    ghost Value = { Streaming };

    ghost view = { λ g. g.pager };
}

impl GuardedPager {
    /// A pager of so many frames, processors and spaces and of these page sizes. All the memory that it takes, but for that of the copies of pages,
    /// is taken here.
    pub fn create(
        alloc: Global,
        frames: u32,
        processors: u32,
        spaces: u32,
        sizes: Sizes,
    ) -> Result<GuardedPager, Refusal>
        ensures created { IfOk result (λ s. (is_setting frames processors spaces ≡ true)
            × IsLive (script_of frames processors spaces sizes) (replicate spaces zero_store) [] [] s) }
        ensures refused { IfErr result (λ why. why ≡ (if is_setting frames processors spaces then Refusal.NoMemory else Refusal.Range)) }
    {
        if !is_setting(frames, processors, spaces) {
            return Err(Refusal::Range);
        }
        let stores = match zero_stores(alloc, spaces) {
            Ok(stores) => stores,
            Err(AllocError) => return Err(Refusal::NoMemory),
        };
        match LivePager::create(alloc, frames, processors, spaces, sizes, stores) {
            Ok(pager) => Ok(GuardedPager { pager }),
            Err(_) => Err(Refusal::NoMemory),
        }
    }

    /// Makes a processor's call, and tells what it was answered and what it did.
    pub fn call(&mut self, line: Line) -> Result<Told, Refusal>
        ensures refused { result_err result ≡ call_refusal self.old line }
        ensures told { IfOk result (λ told. Tells self.old line told self.new) }
        ensures same { IfErr result (λ _. self.new ≡ self.old) }
    {
        if line.processor >= self.pager.processors() || !is_call(self.pager.spaces(), &line.call) {
            return Err(Refusal::Range);
        }
        if self.pager.calls() >= MOST_CALLS_MADE {
            return Err(Refusal::Counted);
        }
        Ok(self.pager.call(line))
    }

    /// How many calls were made.
    pub fn calls(&self) -> u32
        ensures { result ≡ self.now.calls }
    {
        self.pager.calls()
    }

    /// The counts so far.
    pub fn counts(&self) -> Summary
        ensures { (script : Script) (stores : List Stored) (calls : List CallLine) (h : List Entry) → IsLive script stores calls h self.now
            → result ≡ counts (setting_over script stores) h }
    {
        self.pager.counts()
    }
}

/// So many stores in memory, each without a copy yet: all words are zero.
fn zero_stores(alloc: Global, spaces: u32) -> Result<Vec<MemoryStore>, AllocError>
    ensures { IfOk result (λ stores. map stored_of stores.items ≡ replicate spaces zero_store) }
{
    let mut stores = Vec::with_capacity(alloc, spaces as usize)?;
    for _ in 0..spaces {
        let store = MemoryStore::of(alloc, Vec::new(alloc), Vec::new(alloc));
        stores.push(store)?;
    }
    Ok(stores)
}

/// Whether there may be a pager of so many frames, processors and spaces.
fn is_setting(frames: u32, processors: u32, spaces: u32) -> bool
    ensures { result ≡ is_setting frames processors spaces }
{
    (512 <= frames && frames <= MOST_FRAMES && frames % 512 == 0)
        && (1 <= processors && processors <= MOST_PROCESSORS)
        && (1 <= spaces && spaces <= MOST_SPACES)
}

/// Whether a call's numbers are in their bounds, where there are so many spaces.
fn is_call(spaces: u32, call: &Call) -> bool
    ensures is { result ≡ is_call spaces call.now }
    ensures call { IsTrue result → IsCall spaces call.now }
{
    match *call {
        Call::Map {
            space,
            page,
            length,
            ..
        } => is_range(spaces, space, page, length),
        Call::Grow { space, page, by } => is_range(spaces, space, page, by),
        Call::Unmap { space, page } => is_page(spaces, space, page),
        Call::Protect {
            space,
            page,
            length,
            ..
        } => is_range(spaces, space, page, length),
        Call::Load { space, address } => is_word(spaces, space, address),
        Call::Store {
            space,
            address,
            word,
        } => is_store(spaces, space, address, word),
        Call::Sync { space, page } => is_page(spaces, space, page),
        Call::Evict { space, page } => is_page(spaces, space, page),
        Call::Discard {
            space,
            page,
            length,
        } => is_range(spaces, space, page, length),
        Call::Wire { space, page } => is_page(spaces, space, page),
        Call::Unwire { space, page } => is_page(spaces, space, page),
    }
}

/// Whether there are the space and the page.
fn is_page(spaces: u32, space: u32, page: u32) -> bool
    ensures { result ≡ is_page spaces space page }
{
    space < spaces && page < PAGES
}

/// Whether there are the space and the page, and the length is that of a range.
fn is_range(spaces: u32, space: u32, page: u32, length: u32) -> bool
    ensures { result ≡ is_range spaces space page length }
{
    is_page(spaces, space, page) && (1 <= length && length <= PAGES)
}

/// Whether a word may be stored at the address of the space: any number of 64 bits is one.
fn is_store(spaces: u32, space: u32, address: u64, word: u64) -> bool
    ensures is { result ≡ is_word spaces space address }
    ensures call { IsTrue result → IsCall spaces (Store space address word) }
{
    let _ = word;
    is_word(spaces, space, address)
}

/// Whether there is the space, and a word is at the address.
fn is_word(spaces: u32, space: u32, address: u64) -> bool
    ensures { result ≡ is_word spaces space address }
{
    space < spaces && (address % 8 == 0 && address < SPACE_BYTES)
}
