//! One step of a flight, under the lock of a space, that of the frames, or both, and its entry for the log.

ghost use Rattle.std.specs.Prelude.{ℕ, ◌≡◌, ◌+◌, ◌^◌, ◌<◌, ◌≤◌, if◌then◌else◌, List, true, false, Some, None, IfSome};
ghost use Rattle.pager_model.specs.declared.entry.Entry.{Entry};
ghost use Rattle.pager_model.specs.Legal.{IsLegal, frames_at};
ghost use Rattle.pager_model.specs.Settings.{Given};
ghost use Rattle.flight_core.specs.declared.flight.Needs.TheVariants.{Space as Alone, Both, Frames};
ghost use Rattle.flight_core.specs.Lacking.{NeverLacks};
ghost use Rattle.flight_core.specs.Rows.{row_of};
ghost use Rattle.flight_core.specs.Flying.{IsFlying, IsHere, in_space, since};
ghost use Rattle.flight_core.specs.Logged.{CanStep, CanStepBoth, CanStepFrames, Stepped, SteppedOnFrames};

use crate::flight::Flight;
use crate::log::Log;
use frame_pool::Pool;
use space_core::Space;
use store_core::Store;

/// Does the flight's next step, which is made under the lock of this space alone, and answers whether it made an entry.
pub fn step_alone<L: Log, S: Store + Send + Drop>(
    log: &mut L,
    space: &mut Space<S>,
    flight: &mut Flight,
) -> bool
    requires can { CanStep L.stands log.old space.old flight.old }
    requires needs { (row_of flight.old).needs ≡ Alone space.old.number }
    requires takes { (e : Entry) → e.processor ≡ flight.old.processor → e.space ≡ Some space.old.number → e.frames ≡ false → L.takes log.old e }
    requires room { (row_of flight.old).entries ≤ L.room log.old }
    ensures stepped { (g : Given) (h : List Entry) (before : ℕ) → L.stands log.old g h → IsHere g h before space.old flight.old
        → Stepped L.stands (since g h before) log.new result (in_space flight.old space.old) (in_space flight.new space.new) (frames_at g h) }
    ensures takes { (e : Entry) → L.takes log.old e → L.takes log.new e }
    ensures grown { (from : L) → L.grown from log.old → L.grown from log.new }
    ensures room { (row_of flight.new).entries ≤ L.room log.new }
    ensures fewer { L.room log.new + (if result then 1 else 0) ≡ L.room log.old }
    ensures lasting { S.lasts ≡ true → NeverLacks flight.old.phase flight.new.phase }
    ensures nearer { (row_of flight.new).steps < (row_of flight.old).steps }
{
    match flight.step_space(space) {
        Some(entry) => {
            log.add(&entry);
            true
        }
        None => false,
    }
}

/// Does the flight's next step, which is made under the locks of this space and of the frames, and answers whether it made an entry.
pub fn step_both<L: Log, S: Store + Send + Drop>(
    log: &mut L,
    space: &mut Space<S>,
    pool: &mut Pool,
    flight: &mut Flight,
) -> bool
    requires can { CanStepBoth L.stands log.old space.old pool.old flight.old }
    requires needs { (row_of flight.old).needs ≡ Both space.old.number }
    requires takes { (e : Entry) → e.processor ≡ flight.old.processor → IfSome e.space (λ s. s ≡ space.old.number) → L.takes log.old e }
    requires room { (row_of flight.old).entries ≤ L.room log.old }
    requires few { pool.old.entries < 2 ^ 45 }
    ensures stepped { (g : Given) (h : List Entry) (before : ℕ) → L.stands log.old g h → IsHere g h before space.old flight.old → pool.old ≡ frames_at g h
        → Stepped L.stands (since g h before) log.new result (in_space flight.old space.old) (in_space flight.new space.new) pool.new }
    ensures takes { (e : Entry) → L.takes log.old e → L.takes log.new e }
    ensures grown { (from : L) → L.grown from log.old → L.grown from log.new }
    ensures room { (row_of flight.new).entries ≤ L.room log.new }
    ensures fewer { L.room log.new + (if result then 1 else 0) ≡ L.room log.old }
    ensures never_lacks { NeverLacks flight.old.phase flight.new.phase }
    ensures nearer { (row_of flight.new).steps < (row_of flight.old).steps }
{
    match flight.step_both(space, pool) {
        Some(entry) => {
            log.add(&entry);
            true
        }
        None => false,
    }
}

/// Does the flight's next step, which is made under the lock of the frames alone, and makes an entry.
pub fn step_frames<L: Log>(log: &mut L, pool: &mut Pool, flight: &mut Flight)
    requires can { CanStepFrames L.stands log.old pool.old flight.old }
    requires needs { (row_of flight.old).needs ≡ Frames }
    requires takes { (e : Entry) → e.processor ≡ flight.old.processor → e.space ≡ None → L.takes log.old e }
    requires room { (row_of flight.old).entries ≤ L.room log.old }
    requires few { pool.old.entries < 2 ^ 45 }
    ensures stepped { (g : Given) (h : List Entry) (before : ℕ) → L.stands log.old g h → IsLegal g h → IsFlying g h before flight.old
        → pool.old ≡ frames_at g h → SteppedOnFrames L.stands (since g h before) log.new flight.old flight.new pool.new }
    ensures takes { (e : Entry) → L.takes log.old e → L.takes log.new e }
    ensures grown { (from : L) → L.grown from log.old → L.grown from log.new }
    ensures room { (row_of flight.new).entries ≤ L.room log.new }
    ensures fewer { L.room log.new + 1 ≡ L.room log.old }
    ensures never_lacks { NeverLacks flight.old.phase flight.new.phase }
    ensures nearer { (row_of flight.new).steps < (row_of flight.old).steps }
{
    let entry = flight.step_frames(pool);
    log.add(&entry);
}
