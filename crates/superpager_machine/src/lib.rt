//! A whole pager for a C program, which makes its calls one by one.
//!
//! C keeps a handle, and passes numbers alone. Each call tests them, and answers a status: what the call does was done, or why nothing was. What it
//! does is what `LivePager` does, and said by the same definitions.
#![tactic(auto)]

ghost use Rattle.std.specs.Prelude.{◌≡◌, ◌≢◌, true, Some, None, IfSome, IfNone, [], is_some, if◌then◌else◌, replicate};
ghost use Rattle.guarded_pager.specs.Guards.{is_setting, zero_store};
ghost use Rattle.live_pager.specs.Live.{IsLive, script_of};
ghost use Rattle.superpager_machine.specs.Asked.{sizes_of};
ghost use Rattle.superpager_machine.specs.Answers.{TellsCounts, refused_counts};

mod answers;
mod asked;
mod calls;
mod handle;
mod kept;
mod status;

use answers::CountAnswer;
use asked::MachineSetting;
use guarded_pager::{GuardedPager, Refusal};
use handle::Machine;
use status::{CLOSED, DONE, OPEN, status_of};
use std::alloc::Global;

/// Opens a pager whose spaces have no regions, and whose copies of pages are all zero. All the memory that it takes, but for that of the copies, is
/// taken here.
#[unsafe(no_mangle)]
pub extern "C" fn superpager_machine_open(
    alloc: Global,
    machine: &mut Machine,
    setting: MachineSetting,
) -> u32
    ensures closed { result ≡ 0 → machine.old.kept.state ≡ None }
    ensures opened { result ≡ 0 → IfSome machine.new.kept.state
        (λ s. IsLive (script_of setting.frames setting.processors setting.spaces (sizes_of setting)) (replicate setting.spaces zero_store) [] [] s) }
    ensures there { result ≡ 0 → is_some machine.new.kept.state ≡ true }
    ensures refused { result ≢ 0 → (machine.new.kept.state ≡ machine.old.kept.state)
        × (result ≡ (if is_some machine.old.kept.state then 2 else (if is_setting setting.frames setting.processors setting.spaces then 3 else 4))) }
{
    if machine.is_open() {
        return OPEN;
    }
    let made = GuardedPager::create(
        alloc,
        setting.frames,
        setting.processors,
        setting.spaces,
        setting.sizes(),
    );
    let pager = match made {
        Ok(pager) => pager,
        Err(why) => return status_of(why),
    };
    match Box::new(alloc, pager) {
        Ok(pager) => {
            machine.put_in(pager);
            DONE
        }
        Err(_) => status_of(Refusal::NoMemory),
    }
}

/// Closes the pager, and frees its memory.
#[unsafe(no_mangle)]
pub extern "C" fn superpager_machine_close(alloc: Global, machine: &mut Machine) -> u32
    ensures status { result ≡ (if is_some machine.old.kept.state then 0 else 1) }
    ensures closed { machine.new.kept.state ≡ None }
{
    match machine.take_out(alloc) {
        Some(_) => DONE,
        None => CLOSED,
    }
}

/// The counts of the calls so far.
#[unsafe(no_mangle)]
pub extern "C" fn superpager_machine_counts(alloc: Global, machine: &mut Machine) -> CountAnswer
    ensures open { IfSome machine.old.kept.state (λ s. TellsCounts s result) }
    ensures closed { IfNone machine.old.kept.state (result ≡ refused_counts 1) }
    ensures same { machine.new.kept.state ≡ machine.old.kept.state }
{
    let Some(pager) = machine.take_out(alloc) else {
        return CountAnswer::closed();
    };
    let calls = pager.calls();
    let counts = pager.counts();
    machine.put_in(pager);
    CountAnswer::of(calls, &counts)
}
