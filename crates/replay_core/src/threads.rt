//! A thread for each processor, and for the daemon.

ghost use Rattle.std.specs.Prelude.{◌≡◌, ◌≤◌, ◌+◌, ◌++◌, IfOk, IfErr, None, drop, length, map, take, vec_capacity, true};
ghost use Rattle.std.specs.List.{All, range_with_len};
ghost use Rattle.pager_model.specs.Legal.{entries_in};
ghost use Rattle.pager_model.specs.Showing.{actors, jobs_of, marks_of};
ghost use Rattle.pager_model.specs.TraceText.{HasText};
ghost use Rattle.flight_core.specs.Lacking.{NoneLacked};
ghost use Rattle.pager_core.specs.Machines.{most_entries};
ghost use Rattle.pager_core.specs.Running.{entries_of_job};
ghost use Rattle.replay_core.specs.Jobs.{HadRoom, jobs_in, room_for};
ghost use Rattle.pager_core.specs.Replays.{IsReplay, AreItsCounts};

use crate::jobs::{Worker, run_jobs};
use pager_core::{ENTRIES_OF_CALL, Gathered, jobs_by_processor, marks_of};
use pager_locks::Prepared;
use pager_model::{Job, NoMemory, Trace};
use std::alloc::Global;
use std::marker::Brand;
use std::sync::Wait;
use std::thread::Threads;
use store_core::Store;

/// Runs a trace with a thread for each processor, which makes its calls in order, and one for the daemon, which makes its turns; the order of
/// their steps is the one in which the threads come to the locks. There are at least as many stores as spaces, and they come back for want of
/// memory, which comes before the first entry alone. Each pass has room for all entries that its processor's jobs may make. It may wait for
/// locks, and nothing is proved of when it returns.
pub fn replay<S: Store + Send + Drop, R: Threads + Wait + Sync>(
    rt: &R,
    alloc: Global,
    trace: &Trace,
    stores: Vec<S>,
) -> Result<Gathered<S>, Vec<S>>
    requires enough { trace.now.spaces ≤ length stores.items }
    ensures run { IfOk result (λ g. IsReplay trace.now (map S.seen stores.items) g.history.items (map S.seen g.stores.items)) }
    ensures rooms { IfOk result (λ g. HadRoom trace.now (entries_in g.history.items)) }
    ensures counts { IfOk result (λ g. AreItsCounts trace.now (map S.seen stores.items) g.history.items g.summary) }
    ensures lasting { S.lasts ≡ true → IfOk result (λ g. NoneLacked (entries_in g.history.items)) }
    ensures back { IfErr result (λ back. map S.seen back.items ≡ map S.seen stores.items) }
{
    let Ok(
        Crew {
            workers,
            marks,
            rooms,
        },
    ) = crew_of(alloc, trace)
    else {
        return Err(stores);
    };
    let (own, others) = parted(stores, trace.spaces() as usize)?;
    let frames = trace.frames();
    let sizes = trace.sizes();
    match Prepared::create(
        alloc,
        frames,
        sizes,
        marks.as_slice(),
        own,
        rooms.as_slice(),
    ) {
        Ok(prepared) => {
            let Gathered {
                history,
                stores,
                summary,
            } = run_jobs::<Brand, S, R>(rt, prepared, workers);
            Ok(Gathered {
                history,
                stores: joined(stores, others),
                summary,
            })
        }
        Err(own) => Err(joined(own, others)),
    }
}

/// What a run takes beside its pager.
#[derive(Drop)]
struct Crew {
    /// A worker for each processor, which has no pass yet.
    workers: Vec<Worker>,
    /// A mark for each.
    marks: Vec<u32>,
    /// At most how many entries each makes.
    rooms: Vec<usize>,
}

/// The crew of a trace.
fn crew_of(alloc: Global, trace: &Trace) -> Result<Crew, NoMemory>
    ensures text { IfOk result (λ _. HasText trace.now) }
    ensures jobs { IfOk result (λ crew. jobs_in crew.workers.items ≡ map (λ c. jobs_of c trace.now) (range_with_len 0 (actors trace.now))) }
    ensures marks { IfOk result (λ crew. crew.marks.items ≡ marks_of trace.now) }
    ensures rooms { IfOk result (λ crew. crew.rooms.items ≡ map room_for (jobs_in crew.workers.items)) }
{
    let jobs = jobs_by_processor(alloc, trace)?;
    let rooms = rooms_for(alloc, jobs.as_slice())?;
    let marks = marks_of(alloc, trace)?;
    let workers = workers_for(alloc, jobs)?;
    Ok(Crew {
        workers,
        marks,
        rooms,
    })
}

/// A worker for each processor's jobs.
fn workers_for(alloc: Global, jobs: Vec<Vec<Job>>) -> Result<Vec<Worker>, NoMemory>
    ensures { IfOk result (λ workers. workers.items ≡ map (λ own. record { pass = None; jobs = own }) jobs.items) }
{
    Ok(
        jobs.into_iter()
            .map(|jobs| Worker { pass: None, jobs })
            .collect(alloc)?,
    )
}

/// At most how many entries each processor's jobs make.
fn rooms_for(alloc: Global, jobs: &[Vec<Job>]) -> Result<Vec<usize>, NoMemory>
    requires { All (λ own. room_for own.items ≤ most_entries) jobs.now }
    ensures { IfOk result (λ rooms. rooms.items ≡ map (λ own. room_for own.items) jobs.now) }
{
    Ok(
        jobs.iter()
            .map(|own| room_for(own.as_slice()))
            .collect(alloc)?,
    )
}

/// At most how many entries these jobs make.
fn room_for(jobs: &[Job]) -> usize
    requires { room_for jobs.now ≤ most_entries }
    ensures { result ≡ room_for jobs.now }
{
    let mut room = 0;
    for job in jobs {
        room += entries_of_job(job);
    }
    room
}

/// At most how many entries a job makes.
fn entries_of_job(job: &Job) -> usize
    ensures { result ≡ entries_of_job job.now }
{
    match job {
        Job::Call(_) => ENTRIES_OF_CALL,
        Job::Turn { mark } => 4 * *mark as usize + 1,
    }
}

/// Parts the stores of a run's spaces from those that no space uses; the others keep room for all. For want of memory all come back.
fn parted<T: Drop>(all: Vec<T>, count: usize) -> Result<(Vec<T>, Vec<T>), Vec<T>>
    requires { count ≤ length all.items }
    ensures parts { IfOk result (λ parts. (parts.0.items ≡ take count all.items) × (parts.1.items ≡ drop count all.items)) }
    ensures room { IfOk result (λ parts. length all.items ≤ vec_capacity parts.1) }
    ensures back { IfErr result (λ back. back.items ≡ all.items) }
{
    let mut others = all;
    others.rotate_left(count);
    match others.split_off(others.len() - count) {
        Ok(first) => Ok((first, others)),
        Err(_) => {
            others.rotate_right(count);
            Err(others)
        }
    }
}

/// These, and then the others, in whose room there is room for all.
fn joined<T: Drop>(first: Vec<T>, others: Vec<T>) -> Vec<T>
    requires { length others.items + length first.items ≤ vec_capacity others }
    ensures { result.items ≡ first.items ++ others.items }
{
    let (mut first, mut all) = (first, others);
    let count = first.len();
    let Ok(()) = all.append(&mut first) else {
        unreachable!()
    };
    all.rotate_right(count);
    all
}
