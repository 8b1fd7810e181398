//! The calls.

ghost use Rattle.std.specs.Prelude.{◌≡◌, Some, IfErr, IfOk, IfSome};
ghost use Rattle.std.specs.Result.{result_err};
ghost use Rattle.pager_model.specs.declared.call.Call.TheVariants.{Grow, Unmap, Load, Store, Sync, Evict, Discard, Wire, Unwire};
ghost use Rattle.guarded_pager.specs.Guards.{Tells};
ghost use Rattle.superpager_machine.specs.Answers.{IsMade};
ghost use Rattle.superpager_machine.specs.Asked.{map_of, protect_of};
ghost use Rattle.superpager_machine.specs.Statuses.{line_of, line_refusal};

use crate::answers::CallAnswer;
use crate::asked::{kind_of, rights_of};
use crate::handle::Machine;
use crate::status::{CLOSED, status_of};
use guarded_pager::{GuardedPager, Refusal};
use live_pager::Told;
use pager_model::{Call, Line};
use std::alloc::Global;

/// Maps `length` pages from `page` on, as a region of a kind and of rights.
#[unsafe(no_mangle)]
pub extern "C" fn superpager_machine_map(
    alloc: Global,
    machine: &mut Machine,
    processor: u32,
    space: u32,
    page: u32,
    length: u32,
    kind: u32,
    rights: u32,
) -> CallAnswer
    ensures { IsMade machine.old.kept.state processor (map_of space page length kind rights) machine.new.kept.state result }
{
    made(
        alloc,
        machine,
        processor,
        map_of(space, page, length, kind, rights),
    )
}

/// The region that begins at the page, or ends before it, grows by so many pages.
#[unsafe(no_mangle)]
pub extern "C" fn superpager_machine_grow(
    alloc: Global,
    machine: &mut Machine,
    processor: u32,
    space: u32,
    page: u32,
    by: u32,
) -> CallAnswer
    ensures { IsMade machine.old.kept.state processor (Some (Grow space page by)) machine.new.kept.state result }
{
    made(
        alloc,
        machine,
        processor,
        Some(Call::Grow { space, page, by }),
    )
}

/// Unmaps the region of the page.
#[unsafe(no_mangle)]
pub extern "C" fn superpager_machine_unmap(
    alloc: Global,
    machine: &mut Machine,
    processor: u32,
    space: u32,
    page: u32,
) -> CallAnswer
    ensures { IsMade machine.old.kept.state processor (Some (Unmap space page)) machine.new.kept.state result }
{
    made(alloc, machine, processor, Some(Call::Unmap { space, page }))
}

/// Gives `length` pages from `page` on these rights.
#[unsafe(no_mangle)]
pub extern "C" fn superpager_machine_protect(
    alloc: Global,
    machine: &mut Machine,
    processor: u32,
    space: u32,
    page: u32,
    length: u32,
    rights: u32,
) -> CallAnswer
    ensures { IsMade machine.old.kept.state processor (protect_of space page length rights) machine.new.kept.state result }
{
    made(
        alloc,
        machine,
        processor,
        protect_of(space, page, length, rights),
    )
}

/// Loads the word at the address.
#[unsafe(no_mangle)]
pub extern "C" fn superpager_machine_load(
    alloc: Global,
    machine: &mut Machine,
    processor: u32,
    space: u32,
    address: u64,
) -> CallAnswer
    ensures { IsMade machine.old.kept.state processor (Some (Load space address)) machine.new.kept.state result }
{
    made(
        alloc,
        machine,
        processor,
        Some(Call::Load { space, address }),
    )
}

/// Stores a word at the address.
#[unsafe(no_mangle)]
pub extern "C" fn superpager_machine_store(
    alloc: Global,
    machine: &mut Machine,
    processor: u32,
    space: u32,
    address: u64,
    word: u64,
) -> CallAnswer
    ensures { IsMade machine.old.kept.state processor (Some (Store space address word)) machine.new.kept.state result }
{
    made(
        alloc,
        machine,
        processor,
        Some(Call::Store {
            space,
            address,
            word,
        }),
    )
}

/// Writes the page to its copy, where it differs.
#[unsafe(no_mangle)]
pub extern "C" fn superpager_machine_sync(
    alloc: Global,
    machine: &mut Machine,
    processor: u32,
    space: u32,
    page: u32,
) -> CallAnswer
    ensures { IsMade machine.old.kept.state processor (Some (Sync space page)) machine.new.kept.state result }
{
    made(alloc, machine, processor, Some(Call::Sync { space, page }))
}

/// Writes the page to its copy, where it differs, and takes its frame from it.
#[unsafe(no_mangle)]
pub extern "C" fn superpager_machine_evict(
    alloc: Global,
    machine: &mut Machine,
    processor: u32,
    space: u32,
    page: u32,
) -> CallAnswer
    ensures { IsMade machine.old.kept.state processor (Some (Evict space page)) machine.new.kept.state result }
{
    made(alloc, machine, processor, Some(Call::Evict { space, page }))
}

/// Makes the words of `length` pages from `page` on zero, and takes their frames from them.
#[unsafe(no_mangle)]
pub extern "C" fn superpager_machine_discard(
    alloc: Global,
    machine: &mut Machine,
    processor: u32,
    space: u32,
    page: u32,
    length: u32,
) -> CallAnswer
    ensures { IsMade machine.old.kept.state processor (Some (Discard space page length)) machine.new.kept.state result }
{
    made(
        alloc,
        machine,
        processor,
        Some(Call::Discard {
            space,
            page,
            length,
        }),
    )
}

/// Wires the region of the page: its pages are paged out no more.
#[unsafe(no_mangle)]
pub extern "C" fn superpager_machine_wire(
    alloc: Global,
    machine: &mut Machine,
    processor: u32,
    space: u32,
    page: u32,
) -> CallAnswer
    ensures { IsMade machine.old.kept.state processor (Some (Wire space page)) machine.new.kept.state result }
{
    made(alloc, machine, processor, Some(Call::Wire { space, page }))
}

/// Wires the region of the page no more.
#[unsafe(no_mangle)]
pub extern "C" fn superpager_machine_unwire(
    alloc: Global,
    machine: &mut Machine,
    processor: u32,
    space: u32,
    page: u32,
) -> CallAnswer
    ensures { IsMade machine.old.kept.state processor (Some (Unwire space page)) machine.new.kept.state result }
{
    made(
        alloc,
        machine,
        processor,
        Some(Call::Unwire { space, page }),
    )
}

/// Makes a processor's call, where its numbers name one.
fn made(alloc: Global, machine: &mut Machine, processor: u32, call: Option<Call>) -> CallAnswer
    ensures { IsMade machine.old.kept.state processor call machine.new.kept.state result }
{
    let Some(mut pager) = machine.take_out(alloc) else {
        return CallAnswer::refused(CLOSED);
    };
    let told = ask(&mut pager, processor, call);
    machine.put_in(pager);
    match told {
        Ok(told) => CallAnswer::of(told),
        Err(why) => CallAnswer::refused(status_of(why)),
    }
}

/// Makes the call, where there is one.
fn ask(pager: &mut GuardedPager, processor: u32, call: Option<Call>) -> Result<Told, Refusal>
    ensures refused { result_err result ≡ line_refusal pager.old processor call }
    ensures told { IfOk result (λ told. IfSome call (λ c. Tells pager.old (line_of processor c) told pager.new)) }
    ensures same { IfErr result (λ _. pager.new ≡ pager.old) }
{
    match call {
        Some(call) => pager.call(Line { processor, call }),
        None => Err(Refusal::Range),
    }
}

/// The call to map a range, where there are the kind and the rights.
fn map_of(space: u32, page: u32, length: u32, kind: u32, rights: u32) -> Option<Call>
    ensures { result ≡ map_of space page length kind rights }
{
    let kind = kind_of(kind)?;
    let rights = rights_of(rights)?;
    Some(Call::Map {
        space,
        page,
        length,
        kind,
        rights,
    })
}

/// The call to protect a range, where there are the rights.
fn protect_of(space: u32, page: u32, length: u32, rights: u32) -> Option<Call>
    ensures { result ≡ protect_of space page length rights }
{
    let rights = rights_of(rights)?;
    Some(Call::Protect {
        space,
        page,
        length,
        rights,
    })
}
