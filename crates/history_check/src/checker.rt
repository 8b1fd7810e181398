//! What is kept of a history that is legal so far.

ghost use Rattle.std.specs.Prelude.{◌≡◌, ℕ, ◌+◌, ◌^◌, ◌<◌, ◌≤◌, ◌∷◌, ◌++◌, [], true, false, List, Some, None, IfOk, length, map, slice_index_or, All};
ghost use Rattle.pager_model.specs.Bounds.{most_actors, most_frames};
ghost use Rattle.pager_model.specs.declared.entry.Entry.{Entry as Item};
ghost use Rattle.pager_model.specs.Legal.{MayFollow};
ghost use Rattle.pager_model.specs.Order.{Progress as Place, at_rest};
ghost use Rattle.pager_model.specs.Settings.{Given};
ghost use Rattle.pager_model.specs.Showing.{marks_of};
ghost use Rattle.followed_space.specs.Follows.{AnswersLine};
ghost use Rattle.history_check.specs.Shown.{AllAtRest, IsAtRest};
ghost use Rattle.history_check.specs.Standing.{IsNewSpace, StandsAfter, StandsSome};
ghost use Rattle.history_check.specs.Verdicts.{told_setting};

use crate::judge::{judge_alone, judge_on_space};
use followed_frames::FollowedFrames;
use followed_order::Progress;
use pager_model::{Daemon, Entry, NoMemory, Sizes, Trace};
use std::alloc::Global;
use told_space::ToldSpace;

/// The frames, the spaces and the processors after the entries of a history.
#[derive(Drop)]
pub(crate) struct Checker {
    frames: FollowedFrames,
    spaces: Vec<ToldSpace>,
    /// For each processor how far it has come.
    progress: Vec<Progress>,
    /// For each processor 0 where it makes calls, and the daemon's low mark.
    marks: Vec<u32>,
}

/// The mark of each processor of a trace: 0 for those that make calls, and the low mark of the daemon, which is the last.
fn marks_of(alloc: Global, trace: &Trace) -> Result<Vec<u32>, NoMemory>
    ensures marks { IfOk result (λ marks. marks.items ≡ marks_of trace.now) }
{
    let mut marks = vec![in alloc; 0; trace.processors() as usize]?;
    if let Some(daemon) = trace.daemon() {
        marks.push(daemon.low)?;
    }
    Ok(marks)
}

/// So many spaces before their first entry.
fn new_spaces(
    alloc: Global,
    spaces: u32,
    sizes: Sizes,
    frames: u32,
    processors: u32,
) -> Result<Vec<ToldSpace>, NoMemory>
    requires frames { frames ≤ most_frames }
    requires processors { processors ≤ most_actors }
    ensures known { IfOk result (λ all. length all.items ≡ spaces) }
    ensures new { IfOk result (λ all. All (IsNewSpace sizes frames processors) all.items) }
{
    let mut all = Vec::with_capacity(alloc, spaces as usize)?;
    for _ in 0..spaces {
        let space = ToldSpace::create(alloc, sizes, frames, processors)?;
        all.push(space)?;
    }
    Ok(all)
}

/// Processors of these marks before their first entry.
fn new_progress(alloc: Global, marks: &[u32]) -> Result<Vec<Progress>, NoMemory>
    ensures { IfOk result (λ all. all.items ≡ map (λ mark. at_rest mark 0) marks.now) }
{
    let mut all = Vec::with_capacity(alloc, marks.len())?;
    for mark in marks {
        all.push(Progress::start(*mark))?;
    }
    Ok(all)
}

impl Checker {
    /// Before the first entry of a history of the trace.
    pub(crate) fn create(alloc: Global, trace: &Trace) -> Result<Checker, NoMemory>
        ensures { IfOk result (StandsAfter (told_setting trace.now) []) }
    {
        let (frames, sizes, actors) = (trace.frames(), trace.sizes(), trace.actors());
        let marks = marks_of(alloc, trace)?;
        Ok(Checker {
            frames: FollowedFrames::create(alloc, frames, sizes, actors)?,
            spaces: new_spaces(alloc, trace.spaces(), sizes, frames, actors)?,
            progress: new_progress(alloc, &marks)?,
            marks,
        })
    }

    /// Whether an entry of this space may follow.
    fn judge_on_space(&mut self, space: usize, entry: &Entry) -> Result<bool, NoMemory>
        requires on_space { entry.now.space ≡ Some space }
        requires space { space < length self.old.spaces.items }
        requires processor { entry.now.processor < length self.old.progress.items }
        requires stands { StandsSome self.old }
        requires line { AnswersLine entry.now.what }
        ensures may { IfOk result (λ may. may ≡ true → (g : Given) (history : List Item) → StandsAfter g history self.old
            → StandsAfter g (history ++ entry.now ∷ []) self.new) }
        ensures may_not { IfOk result (λ may. may ≡ false → (g : Given) (history : List Item) → StandsAfter g history self.old
            → MayFollow g history entry.now → ⊥) }
    {
        let processor = entry.processor as usize;
        let mark = self.marks[processor];
        let may = judge_on_space(
            &mut self.frames,
            &mut self.spaces[space],
            &mut self.progress[processor],
            mark,
            entry,
        )?;
        Ok(may)
    }

    /// Whether an entry without a space may follow.
    fn judge_alone(&mut self, entry: &Entry) -> bool
        requires on_no_space { entry.now.space ≡ None }
        requires processor { entry.now.processor < length self.old.progress.items }
        requires stands { StandsSome self.old }
        ensures may { result ≡ true → (g : Given) (history : List Item) → StandsAfter g history self.old
            → StandsAfter g (history ++ entry.now ∷ []) self.new }
        ensures may_not { result ≡ false → (g : Given) (history : List Item) → StandsAfter g history self.old
            → MayFollow g history entry.now → ⊥ }
    {
        let processor = entry.processor as usize;
        let mark = self.marks[processor];
        judge_alone(&mut self.frames, &mut self.progress[processor], mark, entry)
    }

    /// Whether an entry may follow the history. Where it may, it is the history's last one then.
    pub(crate) fn judge(&mut self, entry: &Entry) -> Result<bool, NoMemory>
        requires stands { StandsSome self.old }
        requires line { AnswersLine entry.now.what }
        ensures may { IfOk result (λ may. may ≡ true → (g : Given) (history : List Item) → StandsAfter g history self.old
            → StandsAfter g (history ++ entry.now ∷ []) self.new) }
        ensures may_not { IfOk result (λ may. may ≡ false → (g : Given) (history : List Item) → StandsAfter g history self.old
            → MayFollow g history entry.now → ⊥) }
    {
        if entry.processor as usize >= self.progress.len() {
            return Ok(false);
        }
        match entry.space {
            Some(space) if space as usize >= self.spaces.len() => Ok(false),
            Some(space) => self.judge_on_space(space as usize, entry),
            None => Ok(self.judge_alone(entry)),
        }
    }

    /// Whether so many processors make no call.
    fn are_idle(&self, processors: u32) -> bool
        requires { processors ≤ length self.now.progress.items }
        ensures idle { result ≡ true → (c : ℕ) (d : Place) → c < processors → IsAtRest 0 (slice_index_or self.now.progress.items c d) }
        ensures other { result ≡ false → ((c : ℕ) (d : Place) → c < processors → IsAtRest 0 (slice_index_or self.now.progress.items c d)) → ⊥ }
    {
        for processor in 0..processors as usize {
            if !self.progress[processor].is_at_rest(0) {
                return false;
            }
        }
        true
    }

    /// Whether the processor of this number is a daemon that made its turns.
    fn has_turned(&self, processor: u32, daemon: Daemon) -> bool
        requires { processor < length self.now.progress.items }
        ensures turned { result ≡ true → (d : Place) → slice_index_or self.now.progress.items processor d ≡ at_rest daemon.low daemon.turns }
        ensures other { result ≡ false → ((d : Place) → slice_index_or self.now.progress.items processor d ≡ at_rest daemon.low daemon.turns) → ⊥ }
    {
        let progress = &self.progress[processor as usize];
        progress.is_at_rest(daemon.low) && progress.made() == u64::from(daemon.turns)
    }

    /// Whether each call and turn that was begun has ended, and the daemon made all its turns.
    pub(crate) fn is_at_rest(&self, trace: &Trace) -> bool
        requires { (history : List Item) × StandsAfter (told_setting trace.now) history self.now }
        ensures rest { result ≡ true → (history : List Item) → StandsAfter (told_setting trace.now) history self.now → AllAtRest trace.now history }
        ensures other { result ≡ false → (history : List Item) → StandsAfter (told_setting trace.now) history self.now → AllAtRest trace.now history → ⊥ }
    {
        if !self.are_idle(trace.processors()) {
            return false;
        }
        match trace.daemon() {
            Some(daemon) => self.has_turned(trace.processors(), daemon),
            None => true,
        }
    }
}
