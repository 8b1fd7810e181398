//! The pool of frames by reservations, as a static library for C. Its header is `examples/embedding/superpager.h`.
//!
//! C keeps a `Superpager`, which has the pool on the heap or none. Contracts see it as the frames' state, where there is a pool. A call takes the
//! pool out, asks it, and puts it back. What C passes and what it is answered goes by value.
//!
//! No call has a `requires`: each is refused by the first cause that holds (`frame_table`), and its status tells which. The calls are
//! `superpager_open`, `superpager_close` and `superpager_counts` here, those for a page in `pages`, and those for a processor in `processors`.
#![tactic(auto)]

ghost use Rattle.std.specs.Prelude.{◌≡◌, ◌≢◌, Some, None, true, IfSome, IfNone, is_some, if◌then◌else◌};
ghost use Rattle.pager_model.specs.FrameStates.{start_frames};
ghost use Rattle.frame_table.specs.Refusals.{is_setting};
ghost use Rattle.superpager_c.specs.Statuses.{sizes_of};
ghost use Rattle.superpager_c.specs.Answers.{refused_counts, counts_of};

mod answers;
mod asked;
mod handle;
mod kept;
mod pages;
mod processors;
mod status;

use answers::CountAnswer;
use asked::PoolSetting;
use frame_table::{FrameTable, Refusal};
use handle::Superpager;
use status::{CLOSED, DONE, OPEN, status_of};
use std::alloc::Global;

/// Opens a pool whose frames are all free. All the memory that it ever takes is taken here.
#[unsafe(no_mangle)]
pub extern "C" fn superpager_open(alloc: Global, pool: &mut Superpager, setting: PoolSetting) -> u32
    ensures opened { result ≡ 0 → (pool.old.kept.state ≡ None) × (is_setting setting.frames setting.processors ≡ true)
        × (pool.new.kept.state ≡ Some (start_frames (sizes_of setting) setting.frames setting.processors)) }
    ensures refused { result ≢ 0 → (pool.new.kept.state ≡ pool.old.kept.state)
        × (result ≡ (if is_some pool.old.kept.state then 2 else (if is_setting setting.frames setting.processors then 3 else 4))) }
{
    if pool.is_open() {
        return OPEN;
    }
    let made = FrameTable::create(alloc, setting.frames, setting.processors, setting.sizes());
    let table = match made {
        Ok(table) => table,
        Err(why) => return status_of(why),
    };
    match Box::new(alloc, table) {
        Ok(table) => {
            pool.put_in(table);
            DONE
        }
        Err(_) => status_of(Refusal::NoMemory),
    }
}

/// Closes the pool, and frees its memory.
#[unsafe(no_mangle)]
pub extern "C" fn superpager_close(alloc: Global, pool: &mut Superpager) -> u32
    ensures status { result ≡ (if is_some pool.old.kept.state then 0 else 1) }
    ensures closed { pool.new.kept.state ≡ None }
{
    match pool.take_out(alloc) {
        Some(_) => DONE,
        None => CLOSED,
    }
}

/// How many frames are in each role, and how many takings broke a reservation.
#[unsafe(no_mangle)]
pub extern "C" fn superpager_counts(alloc: Global, pool: &mut Superpager) -> CountAnswer
    ensures open { IfSome pool.old.kept.state (λ st. result ≡ counts_of st) }
    ensures closed { IfNone pool.old.kept.state (result ≡ refused_counts 1) }
    ensures same { pool.new.kept.state ≡ pool.old.kept.state }
{
    let Some(table) = pool.take_out(alloc) else {
        return CountAnswer::closed();
    };
    let counts = table.counts();
    let preempted = table.preempted();
    pool.put_in(table);
    CountAnswer::of(counts, preempted)
}
