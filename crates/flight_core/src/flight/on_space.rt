//! The steps that look at a space alone, under its lock, and the refusals that are answered there.

ghost use Rattle.std.specs.Prelude.{◌≡◌, ℕ, ◌<◌, true, None, IfSome, IfNone, length};
ghost use Rattle.pager_model.specs.FrameStates.{FrameState};
ghost use Rattle.pager_model.specs.SpaceStates.{SpaceState};
ghost use Rattle.space_core.specs.Beginning.{LacksItsMemory};
ghost use Rattle.space_core.specs.Standing.{Kept, one_more_if};
ghost use Rattle.flight_core.specs.Flights.{IsReady};
ghost use Rattle.flight_core.specs.Lacking.{NeverLacks};
ghost use Rattle.flight_core.specs.Rows.{call_in, is_of_call, row_of};
ghost use Rattle.flight_core.specs.Steps.{Makes, Passes, Refuses, RowMakes, RowPasses, reads_at, writes_at, FaultsTold};

use super::{Flight, Phase};
use pager_model::{Answered, Call, Entry, Reply, Victim, What};
use space_core::{Begun, OutFault, Space};
use store_core::Store;

impl Flight {
    /// Begins the call.
    pub(super) fn start<S: Store + Send + Drop>(&mut self, space: &mut Space<S>) -> Option<Entry>
        requires phase { self.old.phase ≡ Phase.Start }
        requires image { self.old.processor < length space.old.images }
        requires ready { (st : SpaceState) × IsReady self.old space.old st }
        ensures entry { IfSome result (λ e. (st : SpaceState) (frames : FrameState) → IsReady self.old space.old st → Makes self.old self.new space.old space.new st frames frames e) }
        ensures none { IfNone result ((st : SpaceState) → IsReady self.old space.old st → Passes self.old self.new space.old space.new st) }
        ensures row { IfSome result (λ e. RowMakes self.old.purpose self.old.phase e.what self.new.phase) }
        ensures row_passed { IfNone result (RowPasses self.old.phase self.new.phase) }
        ensures reads { space.new.reads ≡ one_more_if (reads_at self.old.phase) space.old.reads }
        ensures writes { space.new.writes ≡ one_more_if (writes_at space.old (call_in self.old.purpose) self.old.phase) space.old.writes }
        ensures faults { IfSome result (λ e. FaultsTold space.old.store.faults space.new.store.faults e.what) }
        ensures unfailed { IfNone result (space.new.store.faults ≡ space.old.store.faults) }
        ensures memory { self.new.phase ≡ Phase.Ended Reply.NoMemory → LacksItsMemory space.old (call_in self.old.purpose) }
        ensures lasting { S.lasts ≡ true → NeverLacks self.old.phase self.new.phase }
        ensures nearer { (row_of self.new).steps < (row_of self.old).steps }
    {
        let call = self.call();
        match space.begin(self.processor, &call) {
            Begun::Answered(answered) => Some(self.answer(answered)),
            Begun::NeedsFrame { page, want } => {
                self.phase = Phase::Frame { page, want };
                None
            }
            Begun::NeedsClear { first, length } => {
                self.phase = Phase::Clear { first, length };
                None
            }
            Begun::NeedsPin {
                first,
                length,
                wired,
            } => {
                self.phase = Phase::Pin {
                    first,
                    length,
                    wired,
                };
                None
            }
            Begun::NeedsEvict { page } => {
                self.phase = Phase::Evict { page };
                None
            }
            Begun::Failed { page, count } => {
                let own = call.space();
                self.phase = Phase::Fault { space: own, count };
                let writing = true;
                Some(self.entry(
                    Some(own),
                    false,
                    What::Failed {
                        page,
                        writing,
                        count,
                    },
                ))
            }
        }
    }

    /// Looks whether the access, for which a frame is held now, needs it still.
    pub(super) fn look_again<S: Store + Send + Drop>(
        &mut self,
        space: &mut Space<S>,
        victim: Victim,
    ) -> Option<Entry>
        requires phase { self.old.phase ≡ Phase.Back victim }
        requires ready { (st : SpaceState) × IsReady self.old space.old st }
        ensures none { (result ≡ None) × ((st : SpaceState) → IsReady self.old space.old st → Passes self.old self.new space.old space.new st) }
        ensures row { RowPasses self.old.phase self.new.phase }
        ensures same { space.new ≡ space.old }
        ensures nearer { (row_of self.new).steps < (row_of self.old).steps }
    {
        self.phase = match space.wants(&self.call()) {
            Some((page, want)) => Phase::Use { page, want, victim },
            None => Phase::Drop { victim },
        };
        None
    }

    /// Makes the victim's page equal to its copy, or finds that it can't be.
    pub(super) fn write<S: Store + Send + Drop>(
        &mut self,
        space: &mut Space<S>,
        victim: Victim,
    ) -> Option<Entry>
        requires phase { self.old.phase ≡ Phase.Write victim }
        requires ready { (st : SpaceState) × IsReady self.old space.old st }
        ensures entry { IfSome result (λ e. (st : SpaceState) (frames : FrameState) → IsReady self.old space.old st → Makes self.old self.new space.old space.new st frames frames e) }
        ensures none { IfNone result ((st : SpaceState) → IsReady self.old space.old st → Passes self.old self.new space.old space.new st) }
        ensures row { IfSome result (λ e. RowMakes self.old.purpose self.old.phase e.what self.new.phase) }
        ensures row_passed { IfNone result (RowPasses self.old.phase self.new.phase) }
        ensures reads { space.new.reads ≡ one_more_if (reads_at self.old.phase) space.old.reads }
        ensures writes { space.new.writes ≡ one_more_if (writes_at space.old (call_in self.old.purpose) self.old.phase) space.old.writes }
        ensures faults { IfSome result (λ e. FaultsTold space.old.store.faults space.new.store.faults e.what) }
        ensures unfailed { IfNone result (space.new.store.faults ≡ space.old.store.faults) }
        ensures lasting { S.lasts ≡ true → NeverLacks self.old.phase self.new.phase }
        ensures nearer { (row_of self.new).steps < (row_of self.old).steps }
    {
        let page = victim.page;
        match space.write_out(page) {
            Ok(written) => {
                self.phase = Phase::Hand { victim };
                Some(self.entry(Some(victim.space), false, What::Out { page, written }))
            }
            Err(OutFault::Failed { count }) => {
                self.phase = Phase::Unclaim {
                    victim,
                    fault: Some(count),
                };
                let writing = true;
                Some(self.entry(
                    Some(victim.space),
                    false,
                    What::Failed {
                        page,
                        writing,
                        count,
                    },
                ))
            }
            Err(OutFault::NoMemory) => {
                self.phase = Phase::Unclaim {
                    victim,
                    fault: None,
                };
                None
            }
        }
    }

    /// Does the call whose range was cleared, or whose region's frames were wired or are so no longer.
    pub(super) fn conclude<S: Store + Send + Drop>(&mut self, space: &mut Space<S>) -> Entry
        requires phase { (first len : ℕ) × (self.old.phase ≡ Phase.Gone first len) }
        requires ready { (st : SpaceState) × IsReady self.old space.old st }
        ensures entry { (st : SpaceState) (frames : FrameState) → IsReady self.old space.old st → Makes self.old self.new space.old space.new st frames frames result }
        ensures row { RowMakes self.old.purpose self.old.phase result.what self.new.phase }
        ensures reads { space.new.reads ≡ one_more_if (reads_at self.old.phase) space.old.reads }
        ensures writes { space.new.writes ≡ one_more_if (writes_at space.old (call_in self.old.purpose) self.old.phase) space.old.writes }
        ensures faults { FaultsTold space.old.store.faults space.new.store.faults result.what }
        ensures nearer { (row_of self.new).steps < (row_of self.old).steps }
    {
        match self.call() {
            Call::Unmap { page, .. } => {
                let answered = space.unmap(page);
                self.answer(answered)
            }
            Call::Discard { page, length, .. } => {
                let answered = space.discard(page, length);
                self.answer(answered)
            }
            Call::Wire { page, .. } => {
                let answered = space.pin(page, true);
                self.answer(answered)
            }
            Call::Unwire { page, .. } => {
                let answered = space.pin(page, false);
                self.answer(answered)
            }
            _ => unreachable!(),
        }
    }

    /// Reads the page's copy in and answers, or finds that the read fails.
    pub(super) fn fill<S: Store + Send + Drop>(
        &mut self,
        space: &mut Space<S>,
        page: u32,
        frame: u32,
    ) -> Entry
        requires phase { self.old.phase ≡ Phase.Fill page frame }
        requires image { self.old.processor < length space.old.images }
        requires ready { (st : SpaceState) × IsReady self.old space.old st }
        ensures entry { (st : SpaceState) (frames : FrameState) → IsReady self.old space.old st → Makes self.old self.new space.old space.new st frames frames result }
        ensures row { RowMakes self.old.purpose self.old.phase result.what self.new.phase }
        ensures reads { space.new.reads ≡ one_more_if (reads_at self.old.phase) space.old.reads }
        ensures writes { space.new.writes ≡ one_more_if (writes_at space.old (call_in self.old.purpose) self.old.phase) space.old.writes }
        ensures faults { FaultsTold space.old.store.faults space.new.store.faults result.what }
        ensures nearer { (row_of self.new).steps < (row_of self.old).steps }
    {
        let call = self.call();
        match space.read_in(page) {
            Ok(found) => {
                let answered = space.finish(self.processor, &call, found);
                self.answer(answered)
            }
            Err(count) => {
                self.phase = Phase::Unfill { page, frame, count };
                let writing = false;
                self.entry(
                    Some(call.space()),
                    false,
                    What::Failed {
                        page,
                        writing,
                        count,
                    },
                )
            }
        }
    }

    /// Answers the access that needs no frame any more.
    pub(super) fn answer_late<S: Store + Send + Drop>(&mut self, space: &mut Space<S>) -> Entry
        requires phase { self.old.phase ≡ Phase.Late }
        requires image { self.old.processor < length space.old.images }
        requires ready { (st : SpaceState) × IsReady self.old space.old st }
        ensures entry { (st : SpaceState) (frames : FrameState) → IsReady self.old space.old st → Makes self.old self.new space.old space.new st frames frames result }
        ensures row { RowMakes self.old.purpose self.old.phase result.what self.new.phase }
        ensures reads { space.new.reads ≡ one_more_if (reads_at self.old.phase) space.old.reads }
        ensures writes { space.new.writes ≡ one_more_if (writes_at space.old (call_in self.old.purpose) self.old.phase) space.old.writes }
        ensures faults { FaultsTold space.old.store.faults space.new.store.faults result.what }
        ensures nearer { (row_of self.new).steps < (row_of self.old).steps }
    {
        let call = self.call();
        let Begun::Answered(answered) = space.begin(self.processor, &call) else {
            unreachable!()
        };
        self.answer(answered)
    }

    /// Answers that the call can't be served: no frame could be had, a store failed, there was no memory, or a frame to be wired is claimed.
    pub(super) fn refuse(&mut self, reply: Reply) -> Entry
        requires of_call { is_of_call self.old.purpose ≡ true }
        requires phase { Refuses self.old reply }
        ensures entry { (kept : Kept) (st : SpaceState) (frames : FrameState) → IsReady self.old kept st → Makes self.old self.new kept kept st frames frames result }
        ensures row { RowMakes self.old.purpose self.old.phase result.what self.new.phase }
        ensures faults { (count : ℕ) → FaultsTold count count result.what }
        ensures nearer { (row_of self.new).steps < (row_of self.old).steps }
    {
        self.answer(Answered {
            reply,
            hit: false,
            size: None,
        })
    }
}
