ghost use Rattle.std.specs.Prelude.{◌≡◌, ◌≢◌, ℕ, ◌+◌, ◌*◌, ◌^◌, ◌<◌, ◌≤◌, ◌↔◌, if◌then◌else◌, List, [], Some, None, IfSome, IfOk, IfErr, IsTrue, length, map, option_map, drop, take, replicate, true};
ghost use Rattle.std.specs.List.{range_with_len};
ghost use Rattle.pager_model.specs.Counts.{counts};
ghost use Rattle.pager_model.specs.declared.entry.Entry.{Entry};
ghost use Rattle.pager_model.specs.FrameStates.{start_frames};
ghost use Rattle.pager_model.specs.Headline.{IsNeverShort};
ghost use Rattle.pager_model.specs.Laws.{KeepsLaws};
ghost use Rattle.pager_model.specs.Legal.{entries_in, frames_at};
ghost use Rattle.pager_model.specs.Settings.{Given};
ghost use Rattle.pager_model.specs.Showing.{actors, jobs_of};
ghost use Rattle.pager_model.specs.TraceText.{HasText, IsDaemon};
ghost use Rattle.pager_model.specs.Stores.{setting_over, StoresEnd, AreCapped};
ghost use Rattle.flight_core.specs.Lacking.{NeverLacks, NoneLacked};
ghost use Rattle.pager_core.specs.Machines.{IsOther, entries_of_trace, entries_of_turns};
ghost use Rattle.flight_core.specs.Rows.{Going, has_ended, row_of, space_under};
ghost use Rattle.pager_core.specs.RunParts.{AreRoomsOver};
ghost use Rattle.pager_core.specs.Running.{Running, progress_of_actor, flight_at, flight_for, flight_of, first_flights, jobs_at, HasEnded, MustWait, StepsUnder, OneMore, IsLawful, IsWholeRun};
ghost use Rattle.flight_core.specs.Flying.{IsHere, in_space, since};
ghost use Rattle.flight_core.specs.Logged.{CanStepBoth, Stepped};

use crate::jobs::Jobs;
use crate::listed::Listed;
use crate::run_parts::{Gathered, RunRoom};
use flight_core::{Flight, Log, Needs, step_alone, step_both, step_frames};
use frame_pool::Pool;
use pager_model::{Daemon, Job, NoMemory, Setting, Trace};
use run_history::History;
use space_core::Space;
use std::alloc::Global;
use std::marker::Model;
use store_core::Store;

/// What advancing an actor did.
#[derive(Clone, Copy, Debug, PartialEq, Eq)]
pub enum Advance {
    /// The actor has nothing left to do.
    Ended,
    /// One entry was made.
    Stepped,
    /// The actor's next step is made under this space, which another flight keeps.
    Waits(u32),
}

/// Runs the calls of many processors on many spaces, and the turns of a paging daemon, which is one processor more, a step at a time in any
/// order, and keeps the history. It owns the spaces with their stores, the pool and each processor's job in progress: a call, or a turn
/// of the daemon.
#[derive(Drop)]
pub struct Machine<'a, S: Store + Send + Drop> {
    setting: Setting,
    // each processor's jobs
    jobs: Jobs<'a>,
    // each processor's job that is in progress or comes next
    flights: Vec<Option<Flight>>,
    spaces: Vec<Space<S>>,
    // for each space the actor whose flight keeps it, where one does
    keepers: Vec<Option<u32>>,
    // the stores that no space uses, last first, with room for those of the spaces
    stores: Vec<S>,
    pool: Pool,
    log: Listed,
}

impl<'a, S: Store + Send + Drop> Model for Machine<'a, S> {
    ghost use Rattle.std.specs.Prelude.{◌≡◌, ◌+◌, ◌≤◌, true, length, map, reverse, vec_capacity, vec_len};
    ghost use Rattle.pager_core.specs.Running.{Running};
    ghost use Rattle.pager_core.specs.Machines.{IsMachine, AreKeepers, HasMemory};

    ghost Value = { Running };

    ghost view = { λ m. record {
      given = m.setting;
      jobs = m.jobs;
      flights = m.flights.items;
      history = m.log.history.items;
      unused = map S.seen (reverse m.stores.items);
    } };

    ghost invariant = { λ m. IsMachine (record {
      given = m.setting;
      jobs = m.jobs;
      flights = m.flights.items;
      history = m.log.history.items;
      unused = map S.seen (reverse m.stores.items);
    }) m.spaces.items m.pool (m.log.history.room)
        × (vec_len m.stores + length m.spaces.items ≤ vec_capacity m.stores)
        × AreKeepers m.flights.items (length m.spaces.items) m.keepers.items
        × (S.lasts ≡ true → HasMemory (record {
          given = m.setting;
          jobs = m.jobs;
          flights = m.flights.items;
          history = m.log.history.items;
          unused = map S.seen (reverse m.stores.items);
        })) };
}

impl<'a, S: Store + Send + Drop> Machine<'a, S> {
    /// A machine at the start of a trace, whose spaces use the stores of their numbers; there are at least as many stores as spaces. All the
    /// memory that a run takes, but for that of the stores' writes, is taken here, and for want of it the stores come back.
    pub fn create(alloc: Global, trace: &'a Trace, stores: Vec<S>) -> Result<Machine<'a, S>, Vec<S>>
        requires enough { trace.now.spaces ≤ length stores.items }
        ensures made { IfOk result (λ m. (m.given ≡ setting_over trace.now (map S.seen stores.items)) × (m.history ≡ [])
            × (m.jobs ≡ map (λ c. jobs_of c trace.now) (range_with_len 0 (actors trace.now)))
            × (m.flights ≡ first_flights m.jobs) × IsLawful m) }
        ensures laws { IfOk result (λ m. KeepsLaws m.given (entries_in m.history)) }
        ensures unused { IfOk result (λ m. m.unused ≡ drop trace.now.spaces (map S.seen stores.items)) }

        // Each store that a space uses was asked for its count of faults.
        ensures capped { IfOk result (λ _. AreCapped trace.now.spaces (map S.seen stores.items)) }
        ensures back { IfErr result (λ back. map S.seen back.items ≡ map S.seen stores.items) }
    {
        let Ok(parts) = parts_of(alloc, trace, stores.as_slice()) else {
            return Err(stores);
        };
        let room = parts.room;
        let (spaces, stores) = room.spaces.over(stores);
        Ok(Machine {
            setting: room.setting,
            jobs: parts.jobs,
            flights: parts.flights,
            spaces,
            keepers: parts.keepers,
            stores,
            pool: room.pool,
            log: Listed {
                history: parts.history,
            },
        })
    }

    /// Does the actor's steps until one has made an entry.
    pub fn advance(&mut self, actor: u32) -> Advance
        requires { actor < length self.old.jobs }

        // Nothing is left of the actor's jobs, and then nothing changes.
        ensures ended { result ≡ Advance.Ended → (self.new ≡ self.old) × (flight_at self.old.flights actor ≡ None) }
        ensures not_ended { flight_at self.old.flights actor ≡ None → result ≡ Advance.Ended }

        // Its next step is made under a space that another flight keeps, and then nothing changes.
        ensures waits { (space : ℕ) → result ≡ Advance.Waits space → (self.new ≡ self.old) × MustWait self.old actor space }
        ensures not_waiting { (space : ℕ) → MustWait self.old actor space → result ≡ Advance.Waits space }

        // One entry more, of the actor.
        ensures stepped { result ≡ Advance.Stepped → OneMore self.old self.new actor }
        ensures same_jobs { (self.new.given ≡ self.old.given) × (self.new.jobs ≡ self.old.jobs) }
        ensures same_unused { self.new.unused ≡ self.old.unused }

        // After any steps.
        ensures lawful { IsLawful self.new }
        ensures laws { KeepsLaws self.new.given (entries_in self.new.history) }
        ensures never_short { IsNeverShort self.new.given (entries_in self.new.history) }
        ensures lasting { S.lasts ≡ true → NoneLacked (entries_in self.new.history) }
    {
        let Some(flight) = &self.flights[actor as usize] else {
            return Advance::Ended;
        };
        let Some(space) = flight.under() else {
            self.advance_on_frames(actor);
            return Advance::Stepped;
        };
        if self.must_wait(actor, space) {
            return Advance::Waits(space);
        }
        self.advance_in(actor, space);
        Advance::Stepped
    }

    /// Whether another flight keeps this space, which the next step of the actor's flight is made under.
    fn must_wait(&self, actor: u32, space: u32) -> bool
        requires { StepsUnder self.now actor (Some space) }
        ensures { IsTrue result ↔ MustWait self.now actor space }
    {
        is_other(self.keepers[space as usize], actor)
    }

    /// Does the steps of the actor's flight, of which the next is made under this space, until one has made an entry.
    fn advance_in(&mut self, actor: u32, space: u32)
        requires under { StepsUnder self.old actor (Some space) }
        requires free { MustWait self.old actor space → ⊥ }
        ensures stepped { OneMore self.old self.new actor }
        ensures same_jobs { (self.new.given ≡ self.old.given) × (self.new.jobs ≡ self.old.jobs) }
        ensures same_unused { self.new.unused ≡ self.old.unused }
        ensures lawful { IsLawful self.new }
        ensures laws { KeepsLaws self.new.given (entries_in self.new.history) }
        ensures never_short { IsNeverShort self.new.given (entries_in self.new.history) }
        ensures lasting { S.lasts ≡ true → NoneLacked (entries_in self.new.history) }
    {
        let place = &mut self.flights[actor as usize];
        let Some(flight) = place else { unreachable!() };
        make_entry(
            &mut self.log,
            &mut self.spaces[space as usize],
            &mut self.pool,
            flight,
        );
        self.keepers[space as usize] = keeper(actor, flight);
        go_on(place, &self.jobs);
    }

    /// Does the next step of the actor's flight, which is made under the frames' lock alone and makes an entry.
    fn advance_on_frames(&mut self, actor: u32)
        requires { StepsUnder self.old actor None }
        ensures stepped { OneMore self.old self.new actor }
        ensures same_jobs { (self.new.given ≡ self.old.given) × (self.new.jobs ≡ self.old.jobs) }
        ensures same_unused { self.new.unused ≡ self.old.unused }
        ensures lawful { IsLawful self.new }
        ensures laws { KeepsLaws self.new.given (entries_in self.new.history) }
        ensures never_short { IsNeverShort self.new.given (entries_in self.new.history) }
        ensures lasting { S.lasts ≡ true → NoneLacked (entries_in self.new.history) }
    {
        let place = &mut self.flights[actor as usize];
        let Some(flight) = place else { unreachable!() };
        step_frames(&mut self.log, &mut self.pool, flight);
        go_on(place, &self.jobs);
    }

    /// How many of its jobs the actor has done.
    pub fn done(&self, actor: u32) -> u32
        requires { actor < length self.now.jobs }
        ensures made { result ≡ (progress_of_actor self.now actor).made }
        ensures lawful { IsLawful self.now }
    {
        match &self.flights[actor as usize] {
            Some(flight) => flight.number,
            None => self.jobs.count(actor),
        }
    }

    /// Whether the actor has a job left.
    pub fn has_left(&self, actor: u32) -> bool
        ensures { IsTrue result ↔ (flight_at self.now.flights actor ≢ None) }
    {
        match self.flights.get(actor as usize) {
            Some(flight) => flight.is_some(),
            None => false,
        }
    }

    /// Whether no processor has a job left.
    pub fn ended(&self) -> bool
        ensures ended { IsTrue result ↔ HasEnded self.now }
        ensures lawful { IsLawful self.now }
    {
        none_flies(self.flights.as_slice())
    }

    /// The history of the whole run, the stores, and the counts.
    pub fn finish(self) -> Gathered<S>
        requires { HasEnded self }
        ensures history { result.history.items ≡ self.entry.history }
        ensures run { IsWholeRun self.entry.given self.entry.jobs self.entry.history }
        ensures stores { StoresEnd self.entry.given self.entry.history (map S.seen result.stores.items) }
        ensures unused { drop (length self.entry.given.told) (map S.seen result.stores.items) ≡ self.entry.unused }
        ensures summary { result.summary ≡ counts self.entry.given (entries_in self.entry.history) }
        ensures lasting { S.lasts ≡ true → NoneLacked (entries_in self.entry.history) }
    {
        Gathered::of(self.log.history, self.spaces, self.pool, self.stores)
    }
}

/// At most how many entries a call makes.
pub const ENTRIES_OF_CALL: usize = 8;

/// What a machine is made of, beside its stores.
#[derive(Drop)]
struct Parts<'a, S: Store + Send + Drop> {
    jobs: Jobs<'a>,
    flights: Vec<Option<Flight>>,
    keepers: Vec<Option<u32>>,
    history: History,
    room: RunRoom<S>,
}

/// The parts of a machine over stores, of which those of its spaces are looked at.
fn parts_of<'a, S: Store + Send + Drop>(
    alloc: Global,
    trace: &'a Trace,
    stores: &[S],
) -> Result<Parts<'a, S>, NoMemory>
    requires enough { trace.now.spaces ≤ length stores.now }

    // Each part is as it is at the start of the trace.
    ensures text { IfOk result (λ _. HasText trace.now) }
    ensures jobs { IfOk result (λ p. p.jobs ≡ map (λ c. jobs_of c trace.now) (range_with_len 0 (actors trace.now))) }
    ensures flights { IfOk result (λ p. p.flights.items ≡ first_flights p.jobs) }
    ensures keepers { IfOk result (λ p. p.keepers.items ≡ replicate trace.now.spaces None) }
    ensures history { IfOk result (λ p. (p.history.items ≡ []) × (entries_of_trace trace.now ≤ p.history.room)) }
    ensures setting { IfOk result (λ p. p.room.setting ≡ setting_over trace.now (map S.seen stores.now)) }
    ensures spaces { IfOk result (λ p. AreRoomsOver p.room.setting (take trace.now.spaces (map S.seen stores.now)) p.room.spaces) }
    ensures pool { IfOk result (λ p. p.room.pool ≡ start_frames trace.now.sizes trace.now.frames (actors trace.now)) }
    ensures capped { IfOk result (λ _. AreCapped trace.now.spaces (map S.seen stores.now)) }
{
    let history = History::create(alloc, entries_of_trace(trace))?;
    let jobs = Jobs::of(alloc, trace)?;
    let flights = first_of_each(alloc, &jobs, trace.actors())?;
    let spaces = trace.spaces();
    let keepers = no_keepers(alloc, spaces)?;
    let room = RunRoom::of(alloc, trace, stores)?;
    Ok(Parts {
        jobs,
        flights,
        keepers,
        history,
        room,
    })
}

/// That no flight keeps one of so many spaces.
fn no_keepers(alloc: Global, spaces: u32) -> Result<Vec<Option<u32>>, NoMemory>
    ensures { IfOk result (λ keepers. keepers.items ≡ replicate spaces None) }
{
    Ok(vec![in alloc; None; spaces as usize]?)
}

/// At most how many entries the calls of a trace make, and its daemon's turns.
fn entries_of_trace(trace: &Trace) -> usize
    ensures entries { result ≡ entries_of_trace trace.now }
    ensures text { HasText trace.now }
{
    ENTRIES_OF_CALL * trace.calls().len() + entries_of_turns(trace.daemon())
}

/// At most how many entries a daemon's turns make.
fn entries_of_turns(daemon: Option<Daemon>) -> usize
    requires { IsDaemon daemon }
    ensures { result ≡ entries_of_turns daemon }
{
    match daemon {
        Some(Daemon { low, turns }) => turns as usize * (4 * low as usize + 1),
        None => 0,
    }
}

/// For each of all actors the flight of its first job, where it has one.
fn first_of_each(
    alloc: Global,
    jobs: &Jobs<'_>,
    actors: u32,
) -> Result<Vec<Option<Flight>>, NoMemory>
    requires { length jobs.now ≡ actors }
    ensures { IfOk result (λ flights. flights.items ≡ first_flights jobs.now) }
{
    let mut flights = Vec::with_capacity(alloc, actors as usize)?;
    for actor in 0..actors {
        flights.push(flight_of(actor, 0, jobs))?;
    }
    Ok(flights)
}

/// The flight of the actor's job of this number, where there is one.
fn flight_of(actor: u32, number: u32, jobs: &Jobs<'_>) -> Option<Flight>
    ensures { result ≡ flight_of actor number (jobs_at jobs.now actor) }
{
    let job = jobs.get(actor, number)?;
    Some(flight_for(actor, number, job))
}

/// The flight of a job, of which nothing was done.
fn flight_for(processor: u32, number: u32, job: Job) -> Flight
    ensures { result ≡ flight_for processor number job }
{
    match job {
        Job::Call(call) => Flight::of_call(processor, number, call),
        Job::Turn { mark } => Flight::of_turn(processor, number, mark),
    }
}

/// After a step of the flight in this place: where its job is done, that of the processor's next one takes its place.
fn go_on(place: &mut Option<Flight>, jobs: &Jobs<'_>)
    requires { IfSome place.old (λ flight. flight.number + 1 < 2 ^ 32) }
    ensures going { IfSome place.old (λ flight. (row_of flight).outcome ≡ Going → place.new ≡ Some flight) }
    ensures next { IfSome place.old (λ flight. has_ended (row_of flight).outcome ≡ true
        → place.new ≡ flight_of flight.processor (flight.number + 1) (jobs_at jobs.now flight.processor)) }
{
    let Some(flight) = place else {
        return;
    };
    if flight.has_ended() {
        *place = flight_of(flight.processor, flight.number + 1, jobs);
    }
}

/// Whether no processor has a flight.
fn none_flies(flights: &[Option<Flight>]) -> bool
    ensures { IsTrue result ↔ ((c : ℕ) → flight_at flights.now c ≡ None) }
{
    flights.iter().all(|flight| flight.is_none())
}

/// Whether a space's keeper is another than this actor.
fn is_other(keeper: Option<u32>, actor: u32) -> bool
    ensures { IsTrue result ↔ IsOther keeper actor }
{
    match keeper {
        Some(keeper) => keeper != actor,
        None => false,
    }
}

/// The actor, where its flight keeps a space.
fn keeper(actor: u32, flight: &Flight) -> Option<u32>
    ensures { result ≡ option_map (λ _. actor) (row_of flight.now).keeps }
{
    match flight.keeps() {
        Some(_) => Some(actor),
        None => None,
    }
}

/// Does the flight's steps until one has made an entry. All of them are made under this space.
fn make_entry<L: Log, S: Store + Send + Drop>(
    log: &mut L,
    space: &mut Space<S>,
    pool: &mut Pool,
    flight: &mut Flight,
)
    requires can { CanStepBoth L.stands log.old space.old pool.old flight.old }
    requires takes { (e : Entry) → L.takes log.old e }
    requires room { (row_of flight.old).entries ≤ L.room log.old }
    requires few { pool.old.entries < 2 ^ 45 }
    ensures made { (g : Given) (h : List Entry) (before : ℕ) → L.stands log.old g h → IsHere g h before space.old flight.old
        → pool.old ≡ frames_at g h
        → Stepped L.stands (since g h before) log.new true (in_space flight.old space.old) (in_space flight.new space.new) pool.new }
    ensures fewer { L.room log.new + 1 ≡ L.room log.old }
    ensures lasting { S.lasts ≡ true → NeverLacks flight.old.phase flight.new.phase }
{
    loop {
        if step(log, space, pool, flight) {
            return;
        }
    }
}

/// Does the flight's next step, which is made under this space, and answers whether it made an entry.
fn step<L: Log, S: Store + Send + Drop>(
    log: &mut L,
    space: &mut Space<S>,
    pool: &mut Pool,
    flight: &mut Flight,
) -> bool
    requires can { CanStepBoth L.stands log.old space.old pool.old flight.old }
    requires takes { (e : Entry) → L.takes log.old e }
    requires room { (row_of flight.old).entries ≤ L.room log.old }
    requires few { pool.old.entries < 2 ^ 45 }
    ensures stepped { (g : Given) (h : List Entry) (before : ℕ) → L.stands log.old g h → IsHere g h before space.old flight.old
        → pool.old ≡ frames_at g h
        → Stepped L.stands (since g h before) log.new result (in_space flight.old space.old) (in_space flight.new space.new) pool.new }
    ensures takes { (e : Entry) → L.takes log.new e }
    ensures room { (row_of flight.new).entries ≤ L.room log.new }
    ensures fewer { L.room log.new + (if result then 1 else 0) ≡ L.room log.old }
    ensures lasting { S.lasts ≡ true → NeverLacks flight.old.phase flight.new.phase }
    ensures nearer { (row_of flight.new).steps < (row_of flight.old).steps }
{
    match flight.needs() {
        Needs::Space(_) => step_alone(log, space, flight),
        Needs::Both(_) => step_both(log, space, pool, flight),
        Needs::Frames | Needs::Ended => unreachable!(),
    }
}
