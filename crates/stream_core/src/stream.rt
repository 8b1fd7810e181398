//! The stream: its start, a call, its counts, and its two ends.

ghost use Rattle.std.specs.Prelude.{◌≡◌, ℕ, ◌+◌, ◌<◌, ◌≤◌, [], ◌∷◌, ◌++◌, List, IfErr, IfOk, IfSome, None, is_some, length, map};
ghost use Rattle.miss_curves.specs.Curves.{AreLong, stream_capacities};
ghost use Rattle.pager_model.specs.declared.call.Line.{Line as CallLine};
ghost use Rattle.pager_model.specs.declared.entry.Entry.{Entry};
ghost use Rattle.pager_model.specs.Bounds.{most_spaces, space_pages};
ghost use Rattle.pager_model.specs.Counts.{counts};
ghost use Rattle.pager_model.specs.FrameStates.{frame_of};
ghost use Rattle.pager_model.specs.Scripts.{Script};
ghost use Rattle.pager_model.specs.Stored.{Stored};
ghost use Rattle.pager_model.specs.Stores.{setting_over};
ghost use Rattle.stream_core.specs.Streaming.{CanCall, CanMake, CanStand, CanTurn, IsAfter, IsAt, IsCalled, IsDue, IsNext, IsMade, IsMadeAlone, IsRunTo, IsRunWhole, IsStanding, TookTurns, turns_in};
ghost use Rattle.stream_core.specs.Tallies.{has_curves};

use crate::tally::Tally;
use flight_core::{Counted, Flight, fly};
use frame_pool::Pool;
use miss_curves::Curves;
use pager_core::{RunRoom, counts_of, stores_of};
use pager_model::{Answered, Daemon, Line, Summary, Trace};
use space_core::Space;
use std::alloc::Global;
use std::marker::Model;
use store_core::Store;

/// A run by the order of the lines, of which nothing is kept but its counts. It owns the spaces with their stores, and the pool.
#[derive(Drop)]
pub struct Stream<S: Store + Send + Drop> {
    // how many calls each processor has made, and all of them
    numbers: [u32; 16],
    calls: u32,
    // the daemon, its number, and how many turns it has made
    daemon: Option<Daemon>,
    processors: u32,
    turns: u32,
    tally: Tally,
    spaces: Vec<Space<S>>,
    pool: Pool,
    // the stores that no space uses, last first, with room for those of the spaces
    stores: Vec<S>,
}

impl<S: Store + Send + Drop> Model for Stream<S> {
    ghost use Rattle.std.specs.Prelude.{◌+◌, ◌≤◌, length, map, reverse, vec_capacity, vec_len};
    ghost use Rattle.stream_core.specs.Streaming.{Streaming};

    ghost Value = { Streaming };

    ghost view = { λ s. record {
      numbers = s.numbers;
      calls = s.calls;
      daemon = s.daemon;
      processors = s.processors;
      turns = s.turns;
      tally = s.tally;
      spaces = s.spaces.items;
      pool = s.pool;
      unused = map S.seen (reverse s.stores.items);
    } };

    ghost invariant = { λ s. vec_len s.stores + length s.spaces.items ≤ vec_capacity s.stores };
}

/// What a whole run leaves.
#[derive(Drop)]
pub struct Finished<S: Store + Send + Drop> {
    pub summary: Summary,
    /// The misses at each capacity, where they were asked for.
    pub curves: Option<Curves>,
    /// The stores that were handed in, in their order.
    pub stores: Vec<S>,
}

impl<S: Store + Send + Drop> Stream<S> {
    /// A stream at the start of a trace of whose calls none is known, whose spaces use the stores of their numbers; there are at least as many
    /// stores as spaces. Where its miss curves are asked for, they are counted too. All the memory that a run takes, but for that of the stores'
    /// writes, is taken here, and for want of it the stores come back.
    pub fn create(
        alloc: Global,
        opening: &Trace,
        stores: Vec<S>,
        curves: bool,
    ) -> Result<Stream<S>, Vec<S>>
        requires none { opening.now.calls ≡ [] }
        requires enough { opening.now.spaces ≤ length stores.items }
        ensures starts { IfOk result (λ s. IsAfter opening.now (map S.seen stores.items) [] [] s) }
        ensures asked { IfOk result (λ s. has_curves s.tally ≡ curves) }
        ensures back { IfErr result (λ back. map S.seen back.items ≡ map S.seen stores.items) }
    {
        let Ok(room) = RunRoom::of(alloc, opening, stores.as_slice()) else {
            return Err(stores);
        };
        let Ok(tally) = Tally::create(alloc, opening, curves) else {
            return Err(stores);
        };
        let (spaces, stores) = room.spaces.over(stores);
        Ok(Stream {
            numbers: [0; 16],
            calls: 0,
            daemon: opening.daemon(),
            processors: opening.processors(),
            turns: 0,
            tally,
            spaces,
            pool: room.pool,
            stores,
        })
    }

    /// Makes a call to its end, and before it a turn of the daemon, while it has turns left.
    pub fn make(&mut self, line: Line)
        requires can { CanMake self.old line }
        ensures made { (script : Script) (stores : List Stored) (calls : List CallLine) (h : List Entry) → IsAfter script stores calls h self.old
            → IsNext script calls line → IsMade S.lasts script stores (calls ++ line ∷ []) h self.new }
        ensures alone { (script : Script) (stores : List Stored) (calls : List CallLine) (h : List Entry) → IsAfter script stores calls h self.old
            → IsNext script calls line → script.daemon ≡ None → IsMadeAlone script stores calls line h self.new }
        ensures asked { has_curves self.new.tally ≡ has_curves self.old.tally }
    {
        self.take_turn();
        self.make_call(line);
    }

    /// How many calls were made.
    pub fn calls(&self) -> u32
        ensures { result ≡ self.now.calls }
    {
        self.calls
    }

    /// The number behind those of the processors that make calls.
    pub fn processors(&self) -> u32
        ensures { result ≡ self.now.processors }
    {
        self.processors
    }

    /// How many spaces there are.
    pub fn spaces(&self) -> usize
        ensures { result ≡ length self.now.spaces }
    {
        self.spaces.len()
    }

    /// What the last call was answered, where one was made.
    pub fn last(&self) -> Option<Answered>
        ensures { result ≡ self.now.tally.last }
    {
        self.tally.last()
    }

    /// The frame of a page, where it has one.
    pub fn frame_of(&self, space: u32, page: u32) -> Option<u32>
        requires few { space < most_spaces }
        requires page { page < space_pages }
        ensures { result ≡ frame_of self.now.pool space page }
    {
        self.pool.frame_of(space, page)
    }

    /// What was counted of the entries so far.
    pub fn counted(&self) -> Counted
        ensures { result ≡ self.now.tally.counted }
    {
        self.tally.counted()
    }

    /// The counts so far.
    pub fn summary(&self) -> Summary
        requires { CanStand self.now }
        ensures { (script : Script) (stores : List Stored) (calls : List CallLine) (h : List Entry) → IsAfter script stores calls h self.now
            → result ≡ counts (setting_over script stores) h }
    {
        self.counts()
    }

    /// Ends the run where it is: the stores, in their order.
    pub fn stop(self) -> Vec<S>
        requires { CanStand self }
        ensures { (script : Script) (stores : List Stored) (calls : List CallLine) (h : List Entry) → IsAfter script stores calls h self
            → IsRunTo script stores calls h (map S.seen result.items) }
    {
        stores_of(self.spaces, self.stores)
    }

    /// Makes the turns that the daemon has left, and ends the run: the counts of the whole of it, its curves where they are asked for, and the
    /// stores, in their order.
    pub fn finish(self) -> Finished<S>
        requires { CanStand self }
        ensures asked { is_some result.curves ≡ has_curves self.tally }
        ensures long { IfSome result.curves (λ c. AreLong stream_capacities c.tiles.items c.pages.items) }
        ensures whole { (script : Script) (stores : List Stored) (calls : List CallLine) (h : List Entry) → IsAfter script stores calls h self
            → IsRunWhole S.lasts script stores calls h result.summary result.curves (map S.seen result.stores.items) }
    {
        let mut stream = self;
        take_turns(&mut stream);
        let summary = stream.counts();
        Finished {
            summary,
            curves: stream.tally.into_curves(),
            stores: stores_of(stream.spaces, stream.stores),
        }
    }

    /// Makes the daemon's next turn, where one is left.
    fn take_turn(&mut self)
        requires can { CanTurn self.old }
        ensures took { (script : Script) (stores : List Stored) (calls : List CallLine) (h : List Entry) → IsAt script stores calls h self.old
            → IsDue script calls self.old.turns → TookTurns script stores calls h self.old.turns 1 self.new }
        ensures asked { has_curves self.new.tally ≡ has_curves self.old.tally }
    {
        let Some(daemon) = self.daemon else {
            return;
        };
        if self.turns == daemon.turns {
            return;
        }
        let mut flight = Flight::of_turn(self.processors, self.turns, daemon.low);
        fly(
            &mut self.tally,
            &mut self.spaces,
            &mut self.pool,
            &mut flight,
        );
        self.turns += 1;
    }

    /// Makes a call.
    fn make_call(&mut self, line: Line)
        requires can { CanCall self.old line }
        ensures made { (script : Script) (stores : List Stored) (calls : List CallLine) (h : List Entry) → IsAt script stores calls h self.old
            → IsNext script calls line → self.old.turns ≤ length calls + 1
            → IsCalled S.lasts script stores calls line h self.old.turns self.new }
        ensures asked { has_curves self.new.tally ≡ has_curves self.old.tally }
    {
        let place = line.processor as usize;
        let number = self.numbers[place];
        let mut flight = Flight::of_call(line.processor, number, line.call);
        fly(
            &mut self.tally,
            &mut self.spaces,
            &mut self.pool,
            &mut flight,
        );
        self.numbers[place] = number + 1;
        self.calls += 1;
    }

    /// How many turns the daemon has left.
    fn turns_left(&self) -> u32
        requires { IsStanding self.now }
        ensures { result + self.now.turns ≡ turns_in self.now.daemon }
    {
        match self.daemon {
            Some(daemon) => daemon.turns - self.turns,
            None => 0,
        }
    }

    /// The counts after any calls and turns.
    fn counts(&self) -> Summary
        requires { IsStanding self.now }
        ensures { (script : Script) (stores : List Stored) (calls : List CallLine) (h : List Entry) → IsAt script stores calls h self.now
            → result ≡ counts (setting_over script stores) h }
    {
        let counted = self.tally.counted();
        counts_of(
            self.spaces.as_slice(),
            &self.pool,
            counted.hits,
            counted.misses,
        )
    }
}

/// Makes the turns that the daemon has left.
fn take_turns<S: Store + Send + Drop>(stream: &mut Stream<S>)
    requires can { CanTurn stream.old }
    ensures took { (script : Script) (stores : List Stored) (calls : List CallLine) (h : List Entry) → IsAt script stores calls h stream.old
        → IsDue script calls stream.old.turns
        → TookTurns script stores calls h stream.old.turns (turns_in script.daemon) stream.new }
    ensures asked { has_curves stream.new.tally ≡ has_curves stream.old.tally }
{
    for _ in 0..stream.turns_left() {
        stream.take_turn();
    }
}
