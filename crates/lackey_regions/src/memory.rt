//! A program's memory, and what accesses and system calls become.

ghost use Rattle.std.specs.Prelude.{◌≡◌, ◌+◌, ◌*◌, ◌/◌, ◌%◌, ◌^◌, ◌<◌, ◌≤◌, ◌⊎◌, [], ◌∷◌, IfErr, IfOk, IfSome, OnOk, length};
ghost use Rattle.lackey_layout.specs.Places.{AreTaken, AreWhole, HasNone, IsPageAt, Keeps};
ghost use Rattle.pager_model.specs.TraceText.{IsCall};
ghost use Rattle.lackey_regions.specs.LineCalls.{Adds, MadeAt, accesses_of, each_at, stores_of, word, words_of};
ghost use Rattle.lackey_regions.specs.Refusals.{HasByte, IsCause, IsMapping, IsPageOf, Maps, MapsPage};
ghost use Rattle.pager_model.specs.Bounds.{space_pages};

use crate::added::add;
use crate::refusal::Refusal;
use crate::regions::{Change, Regions};
use lackey_layout::{Layout, PIECE};
use lackey_lines::{Access, AccessKind, SystemCall};
use pager_model::{Call, Line, PAGE_BYTES, Rights, WORD_BYTES};
use std::alloc::{AllocError, Global};

/// A program's memory: where its pages are in the space, what regions have of them, and where the heap ended at the most, where that was told.
#[derive(Drop)]
pub struct Memory {
    pub layout: Layout,
    regions: Regions,
    top: Option<u64>,
    ghost whole: { AreWhole layout },
}

impl Memory {
    /// Nothing is mapped.
    pub fn new(alloc: Global) -> Result<Memory, AllocError> {
        Ok(Memory {
            layout: Layout::new(alloc)?,
            regions: Regions::new(alloc)?,
            top: None,
        })
    }

    /// Adds the calls that an access becomes, behind so many calls that were written before and those that are there.
    pub fn access(
        &mut self,
        access: Access,
        before: u64,
        calls: &mut Vec<Line>,
    ) -> Result<(), Refusal>
        ensures made { OnOk result (MadeAt self.new.layout calls.old.items calls.new.items (words_of access)) }
        ensures keeps { Keeps self.old.layout self.new.layout }
        ensures refused { IfErr result (IsCause (IsPageOf access) self.new.layout self.new.regions.regions.items) }
    {
        let page = access.address / PAGE_BYTES;
        let offset = access.address % PAGE_BYTES;
        self.words(
            access.kind,
            page,
            offset / WORD_BYTES * WORD_BYTES,
            before,
            calls,
        )?;
        if offset + u64::from(access.size) > PAGE_BYTES {
            self.words(access.kind, page + 1, 0, before, calls)?;
        }
        Ok(())
    }

    /// Adds the calls of accesses of this kind to one word of a page.
    fn words(
        &mut self,
        kind: AccessKind,
        page: u64,
        offset: u64,
        before: u64,
        calls: &mut Vec<Line>,
    ) -> Result<(), Refusal>
        requires page { page < 2 ^ 52 }
        requires offset { offset < 8192 }
        requires word { offset % 8 ≡ 0 }
        ensures made { OnOk result (MadeAt self.new.layout calls.old.items calls.new.items (each_at (stores_of kind) (page * 8192 + offset))) }
        ensures keeps { Keeps self.old.layout self.new.layout }
        ensures refused { IfErr result (IsCause (λ p. p ≡ page) self.new.layout self.new.regions.regions.items) }
    {
        match kind {
            AccessKind::Instruction | AccessKind::Load => {
                self.word(false, page, offset, before, calls)
            }
            AccessKind::Store => self.word(true, page, offset, before, calls),
            AccessKind::Change => {
                self.word(false, page, offset, before, calls)?;
                self.word(true, page, offset, before, calls)
            }
        }
    }

    /// Adds a load or a store of a word of a page, and before it what gives the page its rights.
    fn word(
        &mut self,
        stores: bool,
        page: u64,
        offset: u64,
        before: u64,
        calls: &mut Vec<Line>,
    ) -> Result<(), Refusal>
        requires page { page < 2 ^ 52 }
        requires offset { offset < 8192 }
        requires word { offset % 8 ≡ 0 }
        ensures made { OnOk result (MadeAt self.new.layout calls.old.items calls.new.items (word stores (page * 8192 + offset) ∷ [])) }
        ensures keeps { Keeps self.old.layout self.new.layout }
        ensures refused { IfErr result (IsCause (λ p. p ≡ page) self.new.layout self.new.regions.regions.items) }
    {
        let Some(at) = self.layout.page_of(page) else {
            return Err(Refusal::MorePieces);
        };
        self.regions.touch(at, stores, calls)?;
        let number = number_of_next(before, calls);
        add(calls, call_at(stores, at, offset, number))
    }

    /// Adds the calls that a system call becomes.
    pub fn system_call(&mut self, call: SystemCall, calls: &mut Vec<Line>) -> Result<(), Refusal>
        ensures adds { OnOk result (Adds calls.old.items calls.new.items []) }
        ensures keeps { Keeps self.old.layout self.new.layout }
        ensures refused { IfErr result (IsCause (MapsPage call) self.new.layout self.new.regions.regions.items) }
        ensures maps { IfErr result (λ refusal. refusal ≡ Refusal.MoreRegions → IsMapping call) }
    {
        match call {
            SystemCall::Map {
                first,
                length,
                rights,
            } => self.map(first, first.saturating_add(length), rights, calls),
            SystemCall::Unmap { first, length } => {
                self.unmap(first, first.saturating_add(length), calls)
            }
            SystemCall::Protect {
                first,
                length,
                rights,
            } => {
                let end = first.saturating_add(length);
                self.change_bytes(
                    Change::Protect(rights),
                    Change::ProtectWider(rights),
                    first,
                    end,
                    calls,
                )
            }
            SystemCall::Break { top } => self.set_top(top, calls),
            SystemCall::Discard { first, length } => {
                self.discard(first, first.saturating_add(length), calls)
            }
            SystemCall::Move {
                first,
                length,
                new_first,
                new_length,
            } => self.remap(first, length, new_first, new_length, calls),
        }
    }

    /// Ends the heap at this address, and maps what is above where it ended before.
    fn set_top(&mut self, top: u64, calls: &mut Vec<Line>) -> Result<(), Refusal>
        ensures adds { OnOk result (Adds calls.old.items calls.new.items []) }
        ensures keeps { Keeps self.old.layout self.new.layout }
        ensures refused { IfErr result (IsCause (λ page. page * 8192 < top) self.new.layout self.new.regions.regions.items) }
    {
        let Some(before) = self.top else {
            self.top = Some(top);
            return Ok(());
        };
        if top <= before {
            return Ok(());
        }
        self.top = Some(top);
        self.map(before, top, Rights::Write, calls)
    }

    /// Unmaps what is moved, and maps it elsewhere. What stays in its place is left.
    fn remap(
        &mut self,
        first: u64,
        length: u64,
        new_first: u64,
        new_length: u64,
        calls: &mut Vec<Line>,
    ) -> Result<(), Refusal>
        ensures adds { OnOk result (Adds calls.old.items calls.new.items []) }
        ensures keeps { Keeps self.old.layout self.new.layout }
        ensures refused { IfErr result (IsCause (HasByte new_first new_length) self.new.layout self.new.regions.regions.items) }
    {
        let stays = if first == new_first {
            length.min(new_length)
        } else {
            0
        };
        self.unmap(
            first.saturating_add(stays),
            first.saturating_add(length),
            calls,
        )?;
        self.map(
            new_first.saturating_add(stays),
            new_first.saturating_add(new_length),
            Rights::Write,
            calls,
        )
    }

    /// Maps the bytes from the first to before the end.
    fn map(
        &mut self,
        first: u64,
        end: u64,
        rights: Rights,
        calls: &mut Vec<Line>,
    ) -> Result<(), Refusal>
        ensures adds { OnOk result (Adds calls.old.items calls.new.items []) }
        ensures keeps { Keeps self.old.layout self.new.layout }
        ensures refused { IfErr result (IsCause (λ page. (first / 8192 ≤ page) × (page * 8192 < end)) self.new.layout self.new.regions.regions.items) }
    {
        self.change_bytes(
            Change::Map(rights),
            Change::MapWider(rights),
            first,
            end,
            calls,
        )
    }

    /// Unmaps the bytes from the first to before the end: the regions that lie there as a whole, and of others what their whole pages hold.
    fn unmap(&mut self, first: u64, end: u64, calls: &mut Vec<Line>) -> Result<(), Refusal>
        ensures adds { OnOk result (Adds calls.old.items calls.new.items []) }
        ensures keeps { Keeps self.old.layout self.new.layout }
        ensures no_memory { IfErr result (λ refusal. refusal ≡ Refusal.NoMemory) }
    {
        self.change_pages(
            Change::Unmap,
            first / PAGE_BYTES,
            end.div_ceil(PAGE_BYTES),
            calls,
        )?;
        self.discard(first, end, calls)
    }

    /// Discards what the whole pages of these bytes hold.
    fn discard(&mut self, first: u64, end: u64, calls: &mut Vec<Line>) -> Result<(), Refusal>
        ensures adds { OnOk result (Adds calls.old.items calls.new.items []) }
        ensures keeps { Keeps self.old.layout self.new.layout }
        ensures no_memory { IfErr result (λ refusal. refusal ≡ Refusal.NoMemory) }
    {
        self.change_pages(
            Change::Discard,
            first.div_ceil(PAGE_BYTES),
            end / PAGE_BYTES,
            calls,
        )
    }

    /// Changes the whole pages of these bytes by one change, and those at the ends of which they have a part by another.
    fn change_bytes(
        &mut self,
        whole: Change,
        part: Change,
        first: u64,
        end: u64,
        calls: &mut Vec<Line>,
    ) -> Result<(), Refusal>
        ensures adds { OnOk result (Adds calls.old.items calls.new.items []) }
        ensures keeps { Keeps self.old.layout self.new.layout }
        ensures refused { IfErr result (IsCause (λ page. (Maps whole ⊎ Maps part) × (first / 8192 ≤ page) × (page * 8192 < end)) self.new.layout self.new.regions.regions.items) }
        ensures maps { IfErr result (λ refusal. refusal ≡ Refusal.MoreRegions → Maps whole ⊎ Maps part) }
    {
        let first_whole = first.div_ceil(PAGE_BYTES);
        let end_whole = end / PAGE_BYTES;
        let first_page = first / PAGE_BYTES;
        let end_page = end.div_ceil(PAGE_BYTES);
        if first_whole >= end_whole {
            return self.change_pages(part, first_page, end_page, calls);
        }
        self.change_pages(part, first_page, first_whole, calls)?;
        self.change_pages(whole, first_whole, end_whole, calls)?;
        self.change_pages(part, end_whole, end_page, calls)
    }

    /// Changes pages of the program, each run of them that lies side by side in the space at once.
    fn change_pages(
        &mut self,
        change: Change,
        first: u64,
        end: u64,
        calls: &mut Vec<Line>,
    ) -> Result<(), Refusal>
        requires { end < 2 ^ 52 }
        ensures adds { OnOk result (Adds calls.old.items calls.new.items []) }
        ensures keeps { Keeps self.old.layout self.new.layout }
        ensures refused { IfErr result (IsCause (λ page. Maps change × (first ≤ page) × (page < end)) self.new.layout self.new.regions.regions.items) }
        ensures maps { IfErr result (λ refusal. refusal ≡ Refusal.MoreRegions → Maps change) }
    {
        let mut run_first = 0;
        let mut run_end = 0;
        let mut page = first;
        while page < end {
            let next = end_in_piece(page, end);
            match self.place(change, page)? {
                Some(at) if at == run_end => run_end = end_of_part(at, page, next),
                Some(at) => {
                    self.regions.change(change, run_first, run_end, calls)?;
                    run_first = at;
                    run_end = end_of_part(at, page, next);
                }
                None => {}
            }
            page = next;
        }
        self.regions.change(change, run_first, run_end, calls)
    }

    /// Where a page of the program is in the space. One that is mapped gets a place where it has none.
    fn place(&mut self, change: Change, page: u64) -> Result<Option<u32>, Refusal>
        ensures at { IfOk result (λ place. IfSome place (IsPageAt self.new.layout page)) }
        ensures keeps { Keeps self.old.layout self.new.layout }
        ensures refused { IfErr result (λ refusal. (refusal ≡ Refusal.MorePieces) × Maps change × AreTaken self.new.layout × HasNone self.new.layout (page / 512)) }
        ensures same { self.new.regions ≡ self.old.regions }
    {
        match change {
            Change::Map(_) | Change::MapWider(_) => match self.layout.page_of(page) {
                Some(at) => Ok(Some(at)),
                None => Err(Refusal::MorePieces),
            },
            _ => Ok(self.layout.find(page)),
        }
    }
}

/// Where the part of a range ends that is in its first page's piece.
fn end_in_piece(page: u64, end: u64) -> u64
    requires some { page < end }
    requires within { end < 2 ^ 52 }
    ensures behind { page < result }
    ensures most { result ≤ end }
    ensures piece { result + page % 512 ≤ page + 512 }
{
    end.min((page / PIECE + 1) * PIECE)
}

/// Where the pages of the space end at which those of the program from one on are, which are of one piece.
fn end_of_part(at: u32, page: u64, next: u64) -> u32
    requires at { at < space_pages }
    requires same { at % 512 ≡ page % 512 }
    requires behind { page < next }
    requires piece { next + page % 512 ≤ page + 512 }
    ensures { result ≤ space_pages }
{
    at + (next - page) as u32
}

/// The number of the call that is added next to these, which stand behind so many.
fn number_of_next(before: u64, calls: &Vec<Line>) -> u64 {
    before.saturating_add(calls.len() as u64).saturating_add(1)
}

/// The load or the store of a word.
fn call_at(stores: bool, at: u32, offset: u64, number: u64) -> Call
    requires at { at < space_pages }
    requires offset { offset < 8192 }
    requires word { offset % 8 ≡ 0 }
    ensures call { IsCall 1 result }
    ensures word { accesses_of result ≡ word stores (at * 8192 + offset) ∷ [] }
{
    let address = u64::from(at) * PAGE_BYTES + offset;
    if stores {
        Call::Store {
            space: 0,
            address,
            word: number,
        }
    } else {
        Call::Load { space: 0, address }
    }
}
