//! The jobs of many processors, each processor's in a thread of its own.

ghost use Rattle.std.specs.Prelude.{◌≡◌, ◌<◌, ◌≤◌, ℕ, true, [], Some, length, map, slice_index_or, vec_capacity};
ghost use Rattle.std.specs.List.{All};
ghost use Rattle.pager_model.specs.Counts.{counts};
ghost use Rattle.pager_model.specs.Legal.{entries_in};
ghost use Rattle.pager_model.specs.Stores.{StoresEnd};
ghost use Rattle.flight_core.specs.Lacking.{NoneLacked};
ghost use Rattle.pager_core.specs.Running.{IsWholeRun};
ghost use Rattle.replay_core.specs.Jobs.{DoesJob, HasDone, HasPass, HaveDone, IsDoneFrom, IsPreparedFor, IsReady, KeepsToRooms, MayDo, MayDoAll, MayDoNext, jobs_in};

use journal_core::Pass;
use pager_core::Gathered;
use pager_locks::{Named, Pager, Prepared, Running, daemon};
use pager_model::{Job, MOST_ACTORS};
use std::sync::Wait;
use std::thread;
use std::thread::Threads;
use store_core::Store;

/// A processor's jobs, and its pass while they are done.
#[derive(Drop)]
pub struct Worker {
    pub pass: Option<Pass>,
    pub jobs: Vec<Job>,
}

/// Opens a pager, does the jobs of each worker in a thread of its own, and closes it.
pub fn run_jobs<N: Named + Send + Sync, S: Store + Send + Drop, R: Threads + Wait + Sync>(
    rt: &R,
    prepared: Prepared<S>,
    workers: Vec<Worker>,
) -> Gathered<S>
    requires named { prepared.journal.name ≡ N.journal }
    requires prepared { IsPreparedFor prepared (jobs_in workers.items) }
    ensures run { IsWholeRun prepared.journal.name.setting (jobs_in workers.items) result.history.items }
    ensures rooms { KeepsToRooms (jobs_in workers.items) (entries_in result.history.items) }
    ensures lasting { S.lasts ≡ true → NoneLacked (entries_in result.history.items) }
    ensures stores { StoresEnd prepared.journal.name.setting result.history.items (map S.seen result.stores.items) }
    ensures count { length result.stores.items ≡ length prepared.journal.name.setting.told }
    ensures summary { result.summary ≡ counts prepared.journal.name.setting (entries_in result.history.items) }
{
    let mut workers = workers;
    let Running { pager, passes } = prepared.open::<N>();
    let passes = do_all(rt, &pager, workers.as_mut_slice(), passes);
    pager.close(passes)
}

/// Does the jobs of the workers with these passes, one a processor.
fn do_all<N: Named + Send + Sync, S: Store + Send + Drop, R: Threads + Wait + Sync>(
    rt: &R,
    pager: &Pager<N, S>,
    workers: &mut [Worker],
    passes: Vec<Pass>,
) -> Vec<Pass>
    requires { MayDoAll N.journal passes.items (jobs_in workers.old) }
    ensures { HaveDone S.lasts N.journal (jobs_in workers.old) result.items }
{
    let mut passes = passes;
    hand_out(workers, &mut passes);
    do_each(rt, pager, workers);
    take_back(workers, passes)
}

/// Gives each worker its processor's pass. The room of the passes is left.
fn hand_out(workers: &mut [Worker], passes: &mut Vec<Pass>)
    requires { length workers.old ≡ length passes.old.items }
    ensures passes { map (λ (w : Worker). w.pass) workers.new ≡ map Some passes.old.items }
    ensures same_jobs { jobs_in workers.new ≡ jobs_in workers.old }
    ensures none_left { passes.new.items ≡ [] }
    ensures room { length workers.new ≤ vec_capacity passes.new }
{
    passes.reverse();
    for worker in workers {
        worker.pass = passes.pop();
    }
}

/// Does each worker's jobs in a thread of its own.
fn do_each<N: Named + Send + Sync, S: Store + Send + Drop, R: Threads + Wait + Sync>(
    rt: &R,
    pager: &Pager<N, S>,
    workers: &mut [Worker],
)
    requires { All (IsReady N.journal) workers.old }
    ensures { (c : ℕ) (d : Worker) → c < length workers.old → IsDoneFrom S.lasts N.journal (slice_index_or workers.old c d) (slice_index_or workers.new c d) }
{
    let each = move |_: usize, worker: &mut Worker|
        requires { IsReady N.journal worker.now }
        ensures { IsDoneFrom S.lasts N.journal worker.entry.now worker.exit.now }
    { do_own(rt, pager, worker) };
    thread::for_each_mut(rt, workers, MOST_ACTORS, &each);
}

/// Does all jobs of a worker.
fn do_own<N: Named, S: Store + Send + Drop, R: Wait>(
    rt: &R,
    pager: &Pager<N, S>,
    worker: &mut Worker,
)
    requires { IsReady N.journal worker.old }
    ensures { IsDoneFrom S.lasts N.journal worker.old worker.new }
{
    let Some(pass) = worker.pass.take() else {
        unreachable!()
    };
    worker.pass = Some(do_jobs(rt, pager, pass, worker.jobs.as_slice()));
}

/// Does these jobs with the pass, in order.
fn do_jobs<N: Named, S: Store + Send + Drop, R: Wait>(
    rt: &R,
    pager: &Pager<N, S>,
    pass: Pass,
    jobs: &[Job],
) -> Pass
    requires { MayDo N.journal pass jobs.now }
    ensures { HasDone S.lasts N.journal pass jobs.now result }
{
    let mut pass = pass;
    for job in jobs {
        pass = do_one(rt, pager, pass, job);
    }
    pass
}

/// Does one job with the pass.
fn do_one<N: Named, S: Store + Send + Drop, R: Wait>(
    rt: &R,
    pager: &Pager<N, S>,
    pass: Pass,
    job: &Job,
) -> Pass
    requires { MayDoNext N.journal pass job.now }
    ensures { DoesJob S.lasts N.journal.setting pass result job.now }
{
    match job {
        Job::Call(call) => pager.call(rt, pass, call).1,
        Job::Turn { mark } => daemon::turn(pager, rt, pass, *mark).1,
    }
}

/// Takes the passes out of the workers again, in their order, into room that is there.
fn take_back(workers: &mut [Worker], room: Vec<Pass>) -> Vec<Pass>
    requires there { All HasPass workers.old }
    requires room { (room.items ≡ []) × (length workers.old ≤ vec_capacity room) }
    ensures { map Some result.items ≡ map (λ (w : Worker). w.pass) workers.old }
{
    let mut passes = room;
    for worker in workers {
        let Some(pass) = worker.pass.take() else {
            unreachable!()
        };
        passes.push_reserved(pass);
    }
    passes
}
