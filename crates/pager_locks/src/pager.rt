//! A pager that many threads call.

ghost use Rattle.std.specs.Prelude.{◌≡◌, ◌≢◌, ◌≤◌, ◌<◌, ◌+◌, true, false, IsSomeAnd, [], length, map, sum, vec_capacity, Some, None};
ghost use Rattle.std.specs.List.{All, range_with_len};
ghost use Rattle.journal_core.specs.Clauses.{IsHistory, IsOwnOf};
ghost use Rattle.pager_model.specs.Agreement.{NothingHeld};
ghost use Rattle.pager_model.specs.Counts.{counts};
ghost use Rattle.pager_model.specs.Headline.{IsNeverShort};
ghost use Rattle.pager_model.specs.Laws.{KeepsLawsAllAlong};
ghost use Rattle.pager_model.specs.Legal.{entries_in, frames_at};
ghost use Rattle.pager_model.specs.Order.{IsWhole};
ghost use Rattle.pager_model.specs.Settings.{mark_of};
ghost use Rattle.pager_model.specs.Stores.{StoresEnd};
ghost use Rattle.pager_core.specs.Machines.{CanFly};
ghost use Rattle.flight_core.specs.Lacking.{NeverLacks};
ghost use Rattle.flight_core.specs.Rows.{call_in, has_ended, reply_in, row_of};
ghost use Rattle.pager_core.specs.Running.{IsNumbered};
ghost use Rattle.pager_locks.specs.Locked.{Departure, IsFlying};
ghost use Rattle.pager_locks.specs.Calls.{MakesCall, MakesTurn, IsNextFlight};
ghost use Rattle.pager_locks.specs.Prepared.{MayCall, MayTurn, AreNewParts};

use crate::locked::LockedPool;
use crate::locks::Locks;
use crate::naming::Named;
use flight_core::Flight;
use frame_pool::Pool;
use journal_core::{Author, Journal, Pass, close};
use pager_core::Gathered;
use pager_model::{Call, Reply};
use run_history::History;
use space_core::Space;
use std::marker::{Model, PhantomData};
use std::sync::{Mutex, Wait};
use store_core::Store;

/// Emptied vectors, with room for what `close` gives back.
#[derive(Drop)]
pub struct Spare<N: Named, S: Store + Send + Drop> {
    spaces: Vec<Space<S>>,
    authors: Vec<Author>,
    stores: Vec<S>,
    of: PhantomData<N>,
    ghost no_spaces: { (spaces.items ≡ []) × (length N.journal.setting.told ≤ vec_capacity spaces) },
    ghost no_authors: { (authors.items ≡ []) × (length N.journal.setting.told + 1 ≤ vec_capacity authors) },
    ghost no_stores: { (stores.items ≡ []) × (length N.journal.setting.told ≤ vec_capacity stores) },
}

/// The spaces and the pool behind their locks, and the journal.
#[derive(Drop)]
pub struct Pager<N: Named, S: Store + Send + Drop> {
    // Behind no lock: it changes by single atomic steps.
    journal: Journal,
    // Each space behind its own.
    spaces: Locks<N, S>,
    // Behind the pool's lock, which is taken under a space's, or alone.
    pool: Mutex<LockedPool<N>>,
    // Behind a lock that no call takes, so that threads may share a pager over stores that they may not share.
    spare: Mutex<Spare<N, S>>,
}

impl<N: Named, S: Store + Send + Drop> Model for Pager<N, S> {
    ghost use Rattle.std.specs.Prelude.{◌≡◌};
    ghost use Rattle.journal_core.specs.Journals.{JournalState};

    ghost Value = { JournalState };

    ghost view = { λ p. p.journal };

    ghost invariant = { λ p. p.journal.name ≡ N.journal };
}

impl<N: Named, S: Store + Send + Drop> Pager<N, S> {
    /// A pager of new parts, over a journal without entries. `stores` is empty, and has room for those of the spaces.
    pub(crate) fn open(
        journal: Journal,
        mut spaces: Vec<Space<S>>,
        mut authors: Vec<Author>,
        pool: Pool,
        stores: Vec<S>,
    ) -> Pager<N, S>
        requires journal { journal.name ≡ N.journal }
        requires parts { AreNewParts N.journal spaces.items authors.items pool }
        requires stores { (stores.items ≡ []) × (length N.journal.setting.told ≤ vec_capacity stores) }
        ensures { result ≡ journal }
    {
        let Some(frames) = authors.pop() else {
            unreachable!()
        };
        spaces.reverse();
        authors.reverse();
        let locks = Locks::of(&mut spaces, &mut authors);
        Pager {
            journal,
            spaces: locks,
            pool: Mutex::new(LockedPool::new(pool, frames)),
            spare: Mutex::new(Spare {
                spaces,
                authors,
                stores,
                of: PhantomData,
            }),
        }
    }

    /// Makes a call of the pass's processor.
    pub fn call<R: Wait>(&self, rt: &R, pass: Pass, call: &Call) -> (Reply, Pass)
        requires pass { MayCall N.journal pass }
        requires can { CanFly (length N.journal.setting.told) call.now }
        ensures made { MakesCall N.journal.setting pass result.1 call.now result.0 }
        ensures lasting { S.lasts ≡ true → result.0 ≢ Reply.NoMemory }
    {
        let flight = Flight::of_call(pass.processor(), pass.answers(), *call);
        let (flight, pass) = self.fly(rt, flight, pass);
        let Some(reply) = flight.reply() else {
            unreachable!()
        };
        (reply, pass)
    }

    /// Does all steps of a flight of which nothing was done: its processor is the pass's, and its number counts the calls that the processor
    /// made before.
    pub fn fly<R: Wait>(&self, rt: &R, flight: Flight, pass: Pass) -> (Flight, Pass)
        requires pass { MayCall N.journal pass }
        requires next { IsNextFlight pass flight }
        requires can { CanFly (length N.journal.setting.told) (call_in flight.purpose) }
        ensures made { IsSomeAnd (reply_in (row_of result.0).outcome) (λ reply. MakesCall N.journal.setting pass result.1 (call_in flight.purpose) reply) }
        ensures lasting { S.lasts ≡ true → reply_in (row_of result.0).outcome ≢ Some Reply.NoMemory }
    {
        let processor = pass.processor();
        prove!(flight.processor == processor);
        self.fly_on(rt, flight, pass)
    }

    /// Makes a turn of the pass's processor, which is a daemon of this low mark.
    pub fn turn<R: Wait>(&self, rt: &R, pass: Pass, mark: u32) -> Pass
        requires pass { MayTurn N.journal pass mark }
        ensures { MakesTurn pass result mark }
    {
        // No entry of a turn has its number, so each may be numbered as the first.
        let flight = Flight::of_turn(pass.processor(), 0, mark);
        self.fly_on(rt, flight, pass).1
    }

    /// Does the flight's steps to its end, from one that is made under a space that it doesn't keep, or under none.
    fn fly_on<R: Wait>(&self, rt: &R, flight: Flight, pass: Pass) -> (Flight, Pass)
        requires flying { (from : Departure) × IsFlying N.journal from flight pass }
        requires keeps { (row_of flight).keeps ≡ None }
        ensures flying { (from : Departure) → IsFlying N.journal from flight pass → IsFlying N.journal from result.0 result.1 }
        ensures ended { has_ended (row_of result.0).outcome ≡ true }
        ensures lasting { S.lasts ≡ true → NeverLacks flight.phase result.0.phase }
    {
        let mut flight = flight;
        let mut pass = pass;
        while !flight.has_ended() {
            pass = self.go_on(rt, &mut flight, pass);
        }
        (flight, pass)
    }

    /// Does the flight's steps under the lock that the next one needs, until it leaves that.
    fn go_on<R: Wait>(&self, rt: &R, flight: &mut Flight, pass: Pass) -> Pass
        requires flying { (from : Departure) × IsFlying N.journal from flight.old pass }
        requires keeps { (row_of flight.old).keeps ≡ None }
        requires going { has_ended (row_of flight.old).outcome ≡ false }
        ensures flying { (from : Departure) → IsFlying N.journal from flight.old pass → IsFlying N.journal from flight.new result }
        ensures left { (row_of flight.new).keeps ≡ None }
        ensures lasting { S.lasts ≡ true → NeverLacks flight.old.phase flight.new.phase }
        ensures nearer { (row_of flight.new).steps < (row_of flight.old).steps }
    {
        match flight.under() {
            Some(space) => self
                .spaces
                .fly(rt, space, &self.journal, &self.pool, flight, pass),
            None => self.pool.lock(rt).step_alone(&self.journal, flight, pass),
        }
    }

    /// Gives up the pager: the one history of all calls, the stores, and the counts. `passes` are those of all processors, in their order, each
    /// with every call that it began answered.
    pub fn close(self, passes: Vec<Pass>) -> Gathered<S>
        requires journal { All (λ p. p.journal ≡ N.journal) passes.items }
        requires processors { map (λ p. p.processor) passes.items ≡ range_with_len 0 (length N.journal.setting.marks) }
        requires whole { All (λ p. IsWhole (mark_of N.journal.setting p.processor) (entries_in p.entries)) passes.items }
        requires room { sum (map (λ p. p.room) passes.items) ≤ self.room }
        ensures numbered { IsNumbered result.history.items }
        ensures history { IsHistory N.journal.setting (entries_in result.history.items) }

        // Each pass's list is its processor's.
        ensures passes { All (λ p. IsOwnOf p (entries_in result.history.items)) passes.items }
        ensures laws { KeepsLawsAllAlong N.journal.setting (entries_in result.history.items) }
        ensures never_short { IsNeverShort N.journal.setting (entries_in result.history.items) }
        ensures none_held { NothingHeld (frames_at N.journal.setting (entries_in result.history.items)) }
        ensures stores { StoresEnd N.journal.setting result.history.items (map S.seen result.stores.items) }
        ensures count { length result.stores.items ≡ length N.journal.setting.told }
        ensures summary { result.summary ≡ counts N.journal.setting (entries_in result.history.items) }
    {
        let Spare {
            mut spaces,
            mut authors,
            stores,
            of: _,
        } = self.spare.into_inner();
        self.spaces.into_parts(&mut spaces, &mut authors);
        let (pool, frames) = self.pool.into_inner().into_parts();
        authors.push_reserved(frames);
        let entries = close(self.journal, authors, passes);
        let history = History::of(entries);
        Gathered::of(history, spaces, pool, stores)
    }
}
