//! What each actor of a trace does, in order.

ghost use Rattle.std.specs.Prelude.{◌≡◌, ◌^◌, ◌<◌, ◌≤◌, IfOk, length, map, slice_get};
ghost use Rattle.std.specs.List.{range_with_len, All};
ghost use Rattle.pager_model.specs.declared.call.Line.{Line};
ghost use Rattle.pager_model.specs.Bounds.{most_calls};
ghost use Rattle.pager_model.specs.Showing.{actors, calls_of, jobs_of};
ghost use Rattle.pager_model.specs.TraceText.{HasText};
ghost use Rattle.pager_core.specs.Running.{jobs_at};
ghost use Rattle.pager_core.specs.TraceJobs.{AreOfLines, job_at, turns_behind};

use crate::run_parts::empty_rows;
use pager_model::{Daemon, Job, Line, NoMemory, Trace};
use std::alloc::Global;
use std::marker::Model;

/// What each actor of a trace does, in order: a processor its calls, which stay in the trace, and the daemon, which is the last, its turns.
///
/// Contracts see it as the list of each actor's jobs.
#[derive(Drop)]
pub(crate) struct Jobs<'a> {
    lines: &'a [Line],
    /// For each processor the numbers of its lines, from 0.
    own: Vec<Vec<u32>>,
    daemon: Option<Daemon>,
}

impl<'a> Model for Jobs<'a> {
    ghost use Rattle.std.specs.Prelude.{List, ◌++◌, map};
    ghost use Rattle.std.specs.List.{All};
    ghost use Rattle.pager_model.specs.declared.trace.Job.{Job};
    ghost use Rattle.pager_core.specs.TraceJobs.{AreOfLines, job_at, turns_behind};

    ghost Value = { List (List Job) };

    ghost view = { λ j. map (λ v. map (job_at j.lines.now) v.items) j.own.items ++ turns_behind j.daemon };

    ghost invariant = { λ j. All (λ v. AreOfLines j.lines.now v.items) j.own.items };
}

impl<'a> Jobs<'a> {
    /// The jobs of a trace's actors.
    pub(crate) fn of(alloc: Global, trace: &'a Trace) -> Result<Jobs<'a>, NoMemory>
        ensures text { IfOk result (λ _. HasText trace.now) }
        ensures jobs { IfOk result (λ jobs. jobs ≡ map (λ c. jobs_of c trace.now) (range_with_len 0 (actors trace.now))) }
    {
        let lines = trace.calls();
        let own = lines_by_processor(alloc, trace.processors(), lines)?;
        let daemon = trace.daemon();
        Ok(Jobs { lines, own, daemon })
    }

    /// The actor's job of this number, where there is one.
    pub(crate) fn get(&self, actor: u32, number: u32) -> Option<Job>
        ensures { result ≡ slice_get (jobs_at self.now actor) number }
    {
        match self.own.get(actor as usize) {
            Some(own) => call_at(self.lines, own.as_slice(), number),
            None => turn_at(self.daemon, actor as usize - self.own.len(), number),
        }
    }

    /// How many jobs the actor has.
    pub(crate) fn count(&self, actor: u32) -> u32
        requires { length (jobs_at self.now actor) < 2 ^ 32 }
        ensures { result ≡ length (jobs_at self.now actor) }
    {
        match self.own.get(actor as usize) {
            Some(own) => own.len() as u32,
            None => turns_at(self.daemon, actor as usize - self.own.len()),
        }
    }
}

/// For each of so many processors the numbers of its lines, ascending. The lines are gone over once.
fn lines_by_processor(
    alloc: Global,
    processors: u32,
    lines: &[Line],
) -> Result<Vec<Vec<u32>>, NoMemory>
    requires within { All (λ (l : Line). l.processor < processors) lines.now }
    requires few { length lines.now ≤ most_calls }
    ensures calls { IfOk result (λ own. map (λ v. map (job_at lines.now) v.items) own.items
        ≡ map (λ c. map Job.Call (calls_of c lines.now)) (range_with_len 0 processors)) }
    ensures lines { IfOk result (λ own. All (λ v. AreOfLines lines.now v.items) own.items) }
{
    let mut own = empty_rows(alloc, processors, lines.len())?;
    let mut number = 0;
    for line in lines {
        own[line.processor as usize].push(number)?;
        number += 1;
    }
    Ok(own)
}

/// The call of the line whose number stands at this place, where a number stands there.
fn call_at(lines: &[Line], own: &[u32], place: u32) -> Option<Job>
    requires { AreOfLines lines.now own.now }
    ensures { result ≡ slice_get (map (job_at lines.now) own.now) place }
{
    let number = own.get(place as usize)?;
    Some(Job::Call(lines[*number as usize].call))
}

/// The turn of this number of the actor so many places behind the last processor: only the first there, the daemon, has turns.
fn turn_at(daemon: Option<Daemon>, behind: usize, number: u32) -> Option<Job>
    ensures { result ≡ slice_get (jobs_at (turns_behind daemon) behind) number }
{
    let daemon = daemon?;
    if behind == 0 && number < daemon.turns {
        return Some(Job::Turn { mark: daemon.low });
    }
    None
}

/// How many turns the actor so many places behind the last processor has.
fn turns_at(daemon: Option<Daemon>, behind: usize) -> u32
    ensures { result ≡ length (jobs_at (turns_behind daemon) behind) }
{
    match daemon {
        Some(daemon) if behind == 0 => daemon.turns,
        _ => 0,
    }
}
