//! A flight from its start to its end, over all spaces and the pool, where no other is in progress.

ghost use Rattle.std.specs.Prelude.{ℕ, ◌≡◌, ◌<◌, ◌≤◌, List, true, false};
ghost use Rattle.pager_model.specs.declared.entry.Entry.{Entry};
ghost use Rattle.pager_model.specs.Settings.{Given};
ghost use Rattle.flight_core.specs.Flying.{since};
ghost use Rattle.flight_core.specs.Lacking.{NeverLacks};
ghost use Rattle.flight_core.specs.Rows.{has_ended, row_of};
ghost use Rattle.flight_core.specs.Whole.{AreAt, CanGoOn, WentOn};

use crate::flight::{Flight, Needs};
use crate::log::Log;
use crate::steps::{step_alone, step_both, step_frames};
use frame_pool::Pool;
use space_core::Space;
use store_core::Store;

/// Does all steps of a flight.
pub fn fly<L: Log, S: Store + Send + Drop>(
    log: &mut L,
    spaces: &mut Vec<Space<S>>,
    pool: &mut Pool,
    flight: &mut Flight,
)
    requires can { CanGoOn L.stands log.old spaces.old.items pool.old flight.old }
    requires going { has_ended (row_of flight.old).outcome ≡ false }
    requires takes { (e : Entry) → L.takes log.old e }
    requires room { (row_of flight.old).entries ≤ L.room log.old }
    ensures went { (g : Given) (h : List Entry) (before : ℕ) → L.stands log.old g h → AreAt g h before spaces.old.items pool.old flight.old
        → WentOn L.stands (since g h before) log.new flight.old flight.new spaces.new.items pool.new }
    ensures grown { (from : L) → L.grown from log.old → L.grown from log.new }
    ensures ended { has_ended (row_of flight.new).outcome ≡ true }
    ensures lasting { S.lasts ≡ true → NeverLacks flight.old.phase flight.new.phase }
{
    while !flight.has_ended() {
        go_on(log, spaces, pool, flight);
    }
}

/// Does the flight's next step.
fn go_on<L: Log, S: Store + Send + Drop>(
    log: &mut L,
    spaces: &mut Vec<Space<S>>,
    pool: &mut Pool,
    flight: &mut Flight,
)
    requires can { CanGoOn L.stands log.old spaces.old.items pool.old flight.old }
    requires going { has_ended (row_of flight.old).outcome ≡ false }
    requires takes { (e : Entry) → L.takes log.old e }
    requires room { (row_of flight.old).entries ≤ L.room log.old }
    ensures went { (g : Given) (h : List Entry) (before : ℕ) → L.stands log.old g h → AreAt g h before spaces.old.items pool.old flight.old
        → WentOn L.stands (since g h before) log.new flight.old flight.new spaces.new.items pool.new }
    ensures takes { (e : Entry) → L.takes log.new e }
    ensures grown { (from : L) → L.grown from log.old → L.grown from log.new }
    ensures room { (row_of flight.new).entries ≤ L.room log.new }
    ensures lasting { S.lasts ≡ true → NeverLacks flight.old.phase flight.new.phase }
    ensures nearer { (row_of flight.new).steps < (row_of flight.old).steps }
{
    match flight.needs() {
        Needs::Space(space) => {
            step_alone(log, &mut spaces[space as usize], flight);
        }
        Needs::Both(space) => {
            step_both(log, &mut spaces[space as usize], pool, flight);
        }
        Needs::Frames => step_frames(log, pool, flight),
        Needs::Ended => unreachable!(),
    }
}
