//! What a run begins with and what it leaves, whoever makes its entries.

ghost use Rattle.std.specs.Prelude.{◌≡◌, ℕ, ◌+◌, ◌^◌, ◌<◌, ◌≤◌, ◌%◌, List, [], ◌∷◌, ◌++◌, Some, IfOk, length, map, drop, take, reverse, replicate, true, slice_get, vec_capacity};
ghost use Rattle.std.specs.List.{range_with_len, All};
ghost use Rattle.pager_model.specs.declared.call.Line.{Line};
ghost use Rattle.pager_model.specs.declared.entry.Entry.{Entry};
ghost use Rattle.pager_model.specs.declared.entry.Numbered.{Numbered};
ghost use Rattle.pager_model.specs.Counts.{counts, hits_in, misses_in};
ghost use Rattle.pager_model.specs.FrameStates.{FrameState, start_frames};
ghost use Rattle.pager_model.specs.Legal.{entries_in};
ghost use Rattle.pager_model.specs.Settings.{Given};
ghost use Rattle.pager_model.specs.Showing.{actors, calls_of, jobs_of, marks_of, turns_of};
ghost use Rattle.pager_model.specs.TraceText.{HasText};
ghost use Rattle.pager_model.specs.Stores.{given_over, setting_over, StoresEnd, AreCapped};
ghost use Rattle.pager_model.specs.Stored.{Stored, TellsZero};
ghost use Rattle.space_core.specs.Standing.{Kept};
ghost use Rattle.pager_core.specs.RunParts.{AreRoomsOver, AreNewSpaces, AreAtRest};
ghost use Rattle.flight_core.specs.Counting.{most_in_history};
ghost use Rattle.pager_core.specs.Sums.{AreFewer, sum_at, tiles_in, promotions_in, demotions_in};
ghost use Rattle.pager_model.specs.Bounds.{most_frames, most_spaces, most_actors};

use frame_pool::Pool;
use pager_model::{Daemon, Job, Line, NoMemory, Setting, Sizes, Summary, Trace};
use run_history::History;
use space_core::{Space, SpaceRoom};
use std::alloc::Global;
use std::marker::Model;
use store_core::Store;

/// All that a run takes of memory, but for that of its stores' writes: its setting, room for its spaces, and its pool, of which every frame is
/// free.
#[derive(Drop)]
pub struct RunRoom<S: Store + Send + Drop> {
    pub setting: Setting,
    pub spaces: SpaceRooms<S>,
    pub pool: Pool,
}

impl<S: Store + Send + Drop> RunRoom<S> {
    /// Room for a run with these page sizes of a space for each of these stores, which are only looked at. `frames` is a multiple of 512, and `marks`
    /// has one mark a processor.
    pub fn create(
        alloc: Global,
        frames: u32,
        sizes: Sizes,
        marks: &[u32],
        stores: &[S],
    ) -> Result<RunRoom<S>, NoMemory>
        requires spaces { (1 ≤ length stores.now) × (length stores.now ≤ most_spaces) }
        requires processors { (1 ≤ length marks.now) × (length marks.now ≤ most_actors) }
        requires whole { frames % 512 ≡ 0 }
        requires frames { frames ≤ most_frames }
        ensures setting { IfOk result (λ room. room.setting ≡ given_over frames sizes marks.now (map S.seen stores.now)) }
        ensures spaces { IfOk result (λ room. AreRoomsOver room.setting (map S.seen stores.now) room.spaces) }
        ensures pool { IfOk result (λ room. room.pool ≡ start_frames sizes frames (length marks.now)) }

        // Each store was asked for its count of faults.
        ensures capped { IfOk result (λ _. AreCapped (length stores.now) (map S.seen stores.now)) }
    {
        let processors = marks.len() as u32;
        let spaces = stores.len() as u32;
        let setting = setting_of(alloc, frames, sizes, marks, stores)?;
        let spaces = SpaceRooms::create(alloc, frames, processors, sizes, spaces)?;
        let pool = Pool::create(alloc, frames, processors, sizes)?;
        Ok(RunRoom {
            setting,
            spaces,
            pool,
        })
    }

    /// The room of a trace's run over these stores, of which those of its spaces are looked at.
    pub fn of(alloc: Global, trace: &Trace, stores: &[S]) -> Result<RunRoom<S>, NoMemory>
        requires enough { trace.now.spaces ≤ length stores.now }
        ensures setting { IfOk result (λ room. room.setting ≡ setting_over trace.now (map S.seen stores.now)) }
        ensures spaces { IfOk result (λ room. AreRoomsOver room.setting (take trace.now.spaces (map S.seen stores.now)) room.spaces) }
        ensures pool { IfOk result (λ room. room.pool ≡ start_frames trace.now.sizes trace.now.frames (actors trace.now)) }
        ensures capped { IfOk result (λ _. AreCapped trace.now.spaces (map S.seen stores.now)) }
    {
        let spaces = trace.spaces();
        let marks = marks_of(alloc, trace)?;
        let own = &stores[..spaces as usize];
        RunRoom::create(alloc, trace.frames(), trace.sizes(), marks.as_slice(), own)
    }
}

/// Room for the spaces of a run.
#[derive(Drop)]
pub struct SpaceRooms<S: Store + Send + Drop> {
    rooms: Vec<SpaceRoom>,
    // Empty, with room for as many spaces.
    spaces: Vec<Space<S>>,
}

impl<S: Store + Send + Drop> Model for SpaceRooms<S> {
    ghost use Rattle.std.specs.Prelude.{◌≡◌, ◌≤◌, List, [], length, vec_capacity};
    ghost use Rattle.pager_model.specs.Bounds.{most_spaces};
    ghost use Rattle.space_core.specs.Rooms.{Capacity};

    ghost Value = { List Capacity };

    ghost view = { λ r. r.rooms.items };

    ghost invariant = { λ r. (length r.rooms.items ≤ most_spaces) × (r.spaces.items ≡ []) × (length r.rooms.items ≤ vec_capacity r.spaces) };
}

impl<S: Store + Send + Drop> SpaceRooms<S> {
    /// Room for so many spaces, each for so many frames and processors, and with these page sizes.
    fn create(
        alloc: Global,
        frames: u32,
        processors: u32,
        sizes: Sizes,
        count: u32,
    ) -> Result<SpaceRooms<S>, NoMemory>
        requires frames { frames ≤ most_frames }
        requires processors { processors ≤ most_actors }
        requires few { count ≤ most_spaces }
        ensures { IfOk result (λ rooms. rooms ≡ replicate count (record { frames = frames; processors = processors; sizes = sizes })) }
    {
        let mut rooms = Vec::with_capacity(alloc, count as usize)?;
        for _ in 0..count {
            rooms.push(SpaceRoom::create(alloc, frames, processors, sizes)?)?;
        }
        let spaces = Vec::with_capacity(alloc, count as usize)?;
        Ok(SpaceRooms { rooms, spaces })
    }

    /// The spaces, each without regions, over the first of the stores, and the stores that are left, last first, with the room of all.
    /// It takes no memory.
    pub fn over(self, stores: Vec<S>) -> (Vec<Space<S>>, Vec<S>)
        requires enough { length self ≤ length stores.items }
        ensures new { (given : Given) → AreRoomsOver given (take (length self) (map S.seen stores.items)) self → AreNewSpaces given result.0.items }
        ensures used { map (λ (k : Kept). k.store) result.0.items ≡ take (length self) (map S.seen stores.items) }
        ensures left { map S.seen (reverse result.1.items) ≡ drop (length self) (map S.seen stores.items) }
        ensures capacity { vec_capacity result.1 ≡ vec_capacity stores }
    {
        let SpaceRooms {
            mut rooms,
            mut spaces,
        } = self;
        let mut left = stores;
        left.reverse();
        while let Some(room) = rooms.pop() {
            let number = spaces.len() as u32;
            let Some(store) = left.pop() else {
                unreachable!()
            };
            spaces.push_reserved(Space::over(number, room, store));
        }
        (spaces, left)
    }
}

/// What a run that ended gives.
#[derive(Drop)]
pub struct Gathered<S: Store + Send + Drop> {
    pub history: History,
    /// The stores that were handed in, in their order.
    pub stores: Vec<S>,
    /// The counts of the whole run.
    pub summary: Summary,
}

impl<S: Store + Send + Drop> Gathered<S> {
    /// Counts a run that ended, and takes the stores out of its spaces. Those that no space uses are handed in last first, with room for
    /// the others, and come behind them. Takes no memory.
    pub fn of(history: History, spaces: Vec<Space<S>>, pool: Pool, unused: Vec<S>) -> Gathered<S>
        requires rest { (given : Given) × AreAtRest given (entries_in history.items) spaces.items pool }
        requires few { (length history.items ≤ most_in_history) × (length spaces.items ≤ most_spaces) }
        requires room { length unused.items + length spaces.items ≤ vec_capacity unused }
        ensures history { result.history ≡ history }
        ensures stores { map S.seen result.stores.items ≡ map (λ (k : Kept). k.store) spaces.items ++ map S.seen (reverse unused.items) }
        ensures ends { (given : Given) → AreAtRest given (entries_in history.items) spaces.items pool
            → StoresEnd given history.items (map S.seen result.stores.items) }
        ensures unused { drop (length spaces.items) (map S.seen result.stores.items) ≡ map S.seen (reverse unused.items) }
        ensures count { length result.stores.items ≡ length spaces.items + length unused.items }
        ensures summary { (given : Given) → AreAtRest given (entries_in history.items) spaces.items pool
            → result.summary ≡ counts given (entries_in history.items) }
    {
        let accesses = history.accesses();
        let summary = counts_of(spaces.as_slice(), &pool, accesses.hits, accesses.misses);
        drop(pool);
        Gathered {
            history,
            stores: stores_of(spaces, unused),
            summary,
        }
    }
}

/// The counts of a run so far, of whose accesses so many hit and so many missed, whoever counted them. No call or turn is in progress.
pub fn counts_of<S: Store + Send + Drop>(
    spaces: &[Space<S>],
    pool: &Pool,
    hits: u64,
    misses: u64,
) -> Summary
    requires few { length spaces.now ≤ most_spaces }
    requires rest { (given : Given) × (history : List Entry) × AreAtRest given history spaces.now pool.now × (length history ≤ most_in_history) }
    ensures { (given : Given) (history : List Entry) → AreAtRest given history spaces.now pool.now → length history ≤ most_in_history
        → hits ≡ hits_in history → misses ≡ misses_in history → result ≡ counts given history }
{
    let frames = pool.counts();
    let (promotions, demotions) = moves_of(spaces);
    Summary {
        tiles: tiles_of(spaces),
        promotions,
        demotions,
        preemptions: pool.preempted(),
        hits,
        misses,
        free: frames.free,
        reserved: frames.reserved,
        used: frames.used,
    }
}

/// The stores of spaces in which nothing is in progress, in their order, and behind them those that no space uses, which are handed in last
/// first, with room for the others. Takes no memory.
pub fn stores_of<S: Store + Send + Drop>(spaces: Vec<Space<S>>, unused: Vec<S>) -> Vec<S>
    requires room { length unused.items + length spaces.items ≤ vec_capacity unused }
    ensures stores { map S.seen result.items ≡ map (λ (k : Kept). k.store) spaces.items ++ map S.seen (reverse unused.items) }
    ensures ends { (given : Given) (history : List Numbered) (pool : FrameState) → AreAtRest given (entries_in history) spaces.items pool
        → StoresEnd given history (map S.seen result.items) }
    ensures unused { drop (length spaces.items) (map S.seen result.items) ≡ map S.seen (reverse unused.items) }
    ensures count { length result.items ≡ length spaces.items + length unused.items }
{
    let mut stores = unused;
    give_back(spaces, &mut stores);
    stores.reverse();
    stores
}

/// The setting over stores: what each says of its copies, and its count of faults.
fn setting_of<S: Store + Send + Drop>(
    alloc: Global,
    frames: u32,
    sizes: Sizes,
    marks: &[u32],
    stores: &[S],
) -> Result<Setting, NoMemory>
    requires spaces { (1 ≤ length stores.now) × (length stores.now ≤ most_spaces) }
    requires processors { (1 ≤ length marks.now) × (length marks.now ≤ most_actors) }
    ensures given { IfOk result (λ g. g ≡ given_over frames sizes marks.now (map S.seen stores.now)) }
    ensures told { IfOk result (λ g. (s : ℕ) (store : Stored) → slice_get (map S.seen stores.now) s ≡ Some store → store.told ≡ true
        → TellsZero store) }
    ensures capped { IfOk result (λ _. AreCapped (length stores.now) (map S.seen stores.now)) }
{
    let marks = marks.to_vec(alloc)?;
    let mut told = Vec::with_capacity(alloc, stores.len())?;
    let mut faults = Vec::with_capacity(alloc, stores.len())?;
    for store in stores {
        told.push(store.told())?;
        faults.push(store.faults())?;
    }
    Ok(Setting::of(frames, marks, told, faults).with_sizes(sizes))
}

/// Puts the stores of the spaces behind these, the first space's last.
fn give_back<S: Store + Send + Drop>(spaces: Vec<Space<S>>, stores: &mut Vec<S>)
    requires room { length stores.old.items + length spaces.items ≤ vec_capacity stores.old }
    ensures stores { map S.seen stores.new.items ≡ map S.seen stores.old.items ++ reverse (map (λ (k : Kept). k.store) spaces.items) }
    ensures capacity { vec_capacity stores.new ≡ vec_capacity stores.old }
{
    let mut spaces = spaces;
    while let Some(space) = spaces.pop() {
        stores.push_reserved(space.into_store());
    }
}

/// How many tiles of each size the spaces have.
fn tiles_of<S: Store + Send + Drop>(spaces: &[Space<S>]) -> [u32; 4]
    requires few { length spaces.now ≤ most_spaces }
    ensures { result ≡ tiles_in spaces.now 0 ∷ tiles_in spaces.now 1 ∷ tiles_in spaces.now 2 ∷ tiles_in spaces.now 3 ∷ [] }
{
    let mut tiles = [0; 4];
    for space in spaces {
        tiles = added(&tiles, &space.tile_counts());
    }
    tiles
}

/// The sums of two counts of tiles, size by size.
fn added(tiles: &[u32; 4], more: &[u32; 4]) -> [u32; 4]
    requires few { AreFewer tiles.now 1073741824 }
    requires few_more { AreFewer more.now 1073741824 }
    ensures { result ≡ sum_at tiles.now more.now 0 ∷ sum_at tiles.now more.now 1 ∷ sum_at tiles.now more.now 2 ∷ sum_at tiles.now more.now 3 ∷ [] }
{
    [
        tiles[0] + more[0],
        tiles[1] + more[1],
        tiles[2] + more[2],
        tiles[3] + more[3],
    ]
}

/// How many promotions and demotions the spaces counted.
fn moves_of<S: Store + Send + Drop>(spaces: &[Space<S>]) -> (u64, u64)
    requires promotions { promotions_in spaces.now < 2 ^ 64 }
    requires demotions { demotions_in spaces.now < 2 ^ 64 }
    ensures { result ≡ (promotions_in spaces.now, demotions_in spaces.now) }
{
    let (mut promotions, mut demotions): (u64, u64) = (0, 0);
    for space in spaces {
        let own = space.moves();
        promotions += own.0;
        demotions += own.1;
    }
    (promotions, demotions)
}

/// The mark of each processor of a trace: 0 for those that make calls, and the low mark of the daemon, which is the last.
pub fn marks_of(alloc: Global, trace: &Trace) -> Result<Vec<u32>, NoMemory>
    ensures { IfOk result (λ marks. marks.items ≡ marks_of trace.now) }
{
    let mut marks = vec![in alloc; 0; trace.processors() as usize]?;
    if let Some(daemon) = trace.daemon() {
        marks.push(daemon.low)?;
    }
    Ok(marks)
}

/// What each processor of a trace does, in order: its calls, or its turns, of the daemon, which is the last.
pub fn jobs_by_processor(alloc: Global, trace: &Trace) -> Result<Vec<Vec<Job>>, NoMemory>
    ensures text { IfOk result (λ _. HasText trace.now) }
    ensures jobs { IfOk result (λ jobs. map (λ v. v.items) jobs.items ≡ map (λ c. jobs_of c trace.now) (range_with_len 0 (actors trace.now))) }
{
    let mut jobs = calls_by_processor(alloc, trace.processors(), trace.calls())?;
    if let Some(daemon) = trace.daemon() {
        jobs.push(turns_of(alloc, daemon)?)?;
    }
    Ok(jobs)
}

/// To make the calls of each of so many processors, in the order of the lines, which are gone over once.
fn calls_by_processor(
    alloc: Global,
    processors: u32,
    lines: &[Line],
) -> Result<Vec<Vec<Job>>, NoMemory>
    requires within { All (λ (l : Line). l.processor < processors) lines.now }
    ensures { IfOk result (λ jobs. map (λ v. v.items) jobs.items ≡ map (λ c. map Job.Call (calls_of c lines.now)) (range_with_len 0 processors)) }
{
    let mut jobs = empty_rows(alloc, processors, lines.len())?;
    for line in lines {
        jobs[line.processor as usize].push(Job::Call(line.call))?;
    }
    Ok(jobs)
}

/// An empty row for each of so many processors, with room for its share of so many calls.
pub(crate) fn empty_rows<T: Drop>(
    alloc: Global,
    processors: u32,
    calls: usize,
) -> Result<Vec<Vec<T>>, NoMemory>
    ensures { IfOk result (λ rows. map (λ v. v.items) rows.items ≡ replicate processors []) }
{
    let mut rows = Vec::with_capacity(alloc, processors as usize)?;
    for _ in 0..processors {
        let share = calls / processors as usize;
        rows.push(Vec::with_capacity(alloc, share)?)?;
    }
    Ok(rows)
}

/// A daemon's turns.
fn turns_of(alloc: Global, daemon: Daemon) -> Result<Vec<Job>, NoMemory>
    ensures { IfOk result (λ jobs. jobs.items ≡ turns_of (Some daemon)) }
{
    let turn = Job::Turn { mark: daemon.low };
    Ok(vec![in alloc; turn; daemon.turns as usize]?)
}
