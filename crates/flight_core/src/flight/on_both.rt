//! The steps that look at a space and the frames, under both locks.

ghost use Rattle.std.specs.Prelude.{◌≡◌, ◌≢◌, ℕ, ◌^◌, ◌<◌, false, Some, None, length};
ghost use Rattle.pager_model.specs.declared.entry.Victim.{Victim};
ghost use Rattle.pager_model.specs.Agreement.{OwnsBy};
ghost use Rattle.pager_model.specs.FrameStates.{counted, give_page};
ghost use Rattle.pager_model.specs.SpaceStates.{SpaceState};
ghost use Rattle.space_core.specs.Beginning.{Removes, SameStore};
ghost use Rattle.space_core.specs.Standing.{dirty_at, frame_at};
ghost use Rattle.pager_model.specs.CallEntries.{give_entry};
ghost use Rattle.flight_core.specs.Flights.{IsReady};
ghost use Rattle.flight_core.specs.Rows.{row_of};
ghost use Rattle.flight_core.specs.Steps.{AreAgreed, Makes, RowMakes};

use super::{Flight, Phase};
use frame_pool::{Full, Pool};
use pager_model::{Entry, PageRange, Victim, Want, What};
use space_core::Space;
use store_core::Store;

impl Flight {
    /// The page that is evicted gives its frame up, and the call is answered.
    pub(super) fn evict<S: Store + Send + Drop>(
        &mut self,
        space: &mut Space<S>,
        pool: &mut Pool,
        page: u32,
    ) -> Entry
        requires phase { self.old.phase ≡ Phase.Evict page }
        requires ready { (st : SpaceState) × IsReady self.old space.old st }
        requires agree { AreAgreed space.old pool.old }
        requires room { pool.old.entries < 2 ^ 45 }
        ensures entry { (st : SpaceState) → IsReady self.old space.old st → Makes self.old self.new space.old space.new st pool.old pool.new result }
        ensures row { RowMakes self.old.purpose self.old.phase result.what self.new.phase }
        ensures same_store { SameStore space.old space.new }
        ensures nearer { (row_of self.new).steps < (row_of self.old).steps }
    {
        let (frame, answered) = space.evict(page);
        pool.give(self.own(), page, frame);
        pool.end_entry();
        let mut entry = self.answer(answered);
        entry.frames = true;
        entry
    }

    /// The pages of the range give their frames up, ascending.
    pub(super) fn clear<S: Store + Send + Drop>(
        &mut self,
        space: &mut Space<S>,
        pool: &mut Pool,
        first: u32,
        length: u32,
    ) -> Entry
        requires phase { self.old.phase ≡ Phase.Clear first length }
        requires ready { (st : SpaceState) × IsReady self.old space.old st }
        requires agree { AreAgreed space.old pool.old }
        requires room { pool.old.entries < 2 ^ 45 }
        ensures entry { (st : SpaceState) → IsReady self.old space.old st → Makes self.old self.new space.old space.new st pool.old pool.new result }
        ensures row { RowMakes self.old.purpose self.old.phase result.what self.new.phase }
        ensures same_store { SameStore space.old space.new }
        ensures nearer { (row_of self.new).steps < (row_of self.old).steps }
    {
        let own = self.own();
        let range = PageRange { first, length };
        while let Some((page, frame)) = space.clear_next(range) {
            pool.give(own, page, frame);
        }
        pool.end_entry();
        self.phase = Phase::Gone { first, length };
        self.entry(Some(own), true, What::Clear { first, length })
    }

    /// The frames of the region's pages are wired, or are so no longer; or one of them, which are to be wired, is claimed.
    pub(super) fn pin<S: Store + Send + Drop>(
        &mut self,
        space: &Space<S>,
        pool: &mut Pool,
        first: u32,
        length: u32,
        wired: bool,
    ) -> Entry
        requires phase { self.old.phase ≡ Phase.Pin first length wired }
        requires ready { (st : SpaceState) × IsReady self.old space.now st }
        requires room { pool.old.entries < 2 ^ 45 }
        ensures entry { (st : SpaceState) → IsReady self.old space.now st → Makes self.old self.new space.now space.now st pool.old pool.new result }
        ensures row { RowMakes self.old.purpose self.old.phase result.what self.new.phase }
        ensures nearer { (row_of self.new).steps < (row_of self.old).steps }
    {
        let own = space.number();
        match pool.pin(own, first, length, wired) {
            None => {
                self.phase = Phase::Gone { first, length };
                self.entry(
                    Some(own),
                    true,
                    What::Pin {
                        first,
                        length,
                        wired,
                    },
                )
            }
            Some(kept) => {
                let (page, frame) = (kept.page, kept.frame);
                self.phase = Phase::Busy {
                    first,
                    length,
                    page,
                };
                self.entry(
                    Some(own),
                    true,
                    What::Kept {
                        first,
                        length,
                        page,
                        frame,
                    },
                )
            }
        }
    }

    /// Takes a frame for the page, claims one, or finds that there is none.
    pub(super) fn take<S: Store + Send + Drop>(
        &mut self,
        space: &mut Space<S>,
        pool: &mut Pool,
        page: u32,
        want: Want,
    ) -> Entry
        requires phase { self.old.phase ≡ Phase.Frame page want }
        requires ready { (st : SpaceState) × IsReady self.old space.old st }
        requires agree { AreAgreed space.old pool.old }
        requires owns { OwnsBy pool.old self.old.processor (row_of self.old).progress.doing }
        requires known { self.old.processor < length pool.old.held }
        requires room { pool.old.entries < 2 ^ 45 }
        ensures entry { (st : SpaceState) → IsReady self.old space.old st → Makes self.old self.new space.old space.new st pool.old pool.new result }
        ensures row { RowMakes self.old.purpose self.old.phase result.what self.new.phase }
        ensures same_store { SameStore space.old space.new }
        ensures nearer { (row_of self.new).steps < (row_of self.old).steps }
    {
        let own = space.number();
        match pool.take(own, page, &want) {
            Ok(taken) => {
                let frame = taken.number();
                space.map_page(page, taken);
                self.phase = Phase::Fill { page, frame };
                self.entry(Some(own), true, What::Take { page, frame, want })
            }
            Err(Full) => self.claim(pool, page),
        }
    }

    /// The page that could not be read in gives its frame up.
    pub(super) fn unfill<S: Store + Send + Drop>(
        &mut self,
        space: &mut Space<S>,
        pool: &mut Pool,
        page: u32,
        count: u64,
    ) -> Entry
        requires phase { (frame : ℕ) × (self.old.phase ≡ Phase.Unfill page frame count) }
        requires ready { (st : SpaceState) × IsReady self.old space.old st }
        requires agree { AreAgreed space.old pool.old }
        requires room { pool.old.entries < 2 ^ 45 }
        ensures entry { (st : SpaceState) → IsReady self.old space.old st → Makes self.old self.new space.old space.new st pool.old pool.new result }
        ensures row { RowMakes self.old.purpose self.old.phase result.what self.new.phase }
        ensures same_store { SameStore space.old space.new }
        ensures nearer { (row_of self.new).steps < (row_of self.old).steps }
    {
        let own = self.own();
        let entry = self.give_up(space, pool, own, page);
        self.phase = Phase::Fault { space: own, count };
        entry
    }

    /// The victim's page gives its frame up to the hand of the processor that claims it.
    pub(super) fn hand<S: Store + Send + Drop>(
        &mut self,
        space: &mut Space<S>,
        pool: &mut Pool,
        victim: Victim,
    ) -> Entry
        requires phase { self.old.phase ≡ Phase.Hand victim }
        requires ready { (st : SpaceState) × IsReady self.old space.old st }
        requires agree { AreAgreed space.old pool.old }
        requires room { pool.old.entries < 2 ^ 45 }
        ensures entry { (st : SpaceState) → IsReady self.old space.old st → Makes self.old self.new space.old space.new st pool.old pool.new result }
        ensures row { RowMakes self.old.purpose self.old.phase result.what self.new.phase }
        ensures same_store { SameStore space.old space.new }
        ensures nearer { (row_of self.new).steps < (row_of self.old).steps }
    {
        let entry = self.give_up(space, pool, victim.space, victim.page);
        self.phase = self.won(victim);
        entry
    }

    /// The held frame goes free, and a frame is taken for the page.
    pub(super) fn use_held<S: Store + Send + Drop>(
        &mut self,
        space: &mut Space<S>,
        pool: &mut Pool,
        page: u32,
        want: Want,
    ) -> Entry
        requires phase { (victim : Victim) × (self.old.phase ≡ Phase.Use page want victim) }
        requires ready { (st : SpaceState) × IsReady self.old space.old st }
        requires agree { AreAgreed space.old pool.old }
        requires owns { OwnsBy pool.old self.old.processor (row_of self.old).progress.doing }
        requires room { pool.old.entries < 2 ^ 45 }
        ensures entry { (st : SpaceState) → IsReady self.old space.old st → Makes self.old self.new space.old space.new st pool.old pool.new result }
        ensures row { RowMakes self.old.purpose self.old.phase result.what self.new.phase }
        ensures same_store { SameStore space.old space.new }
        ensures nearer { (row_of self.new).steps < (row_of self.old).steps }
    {
        let own = space.number();
        let taken = pool.use_held(self.processor, own, page, &want);
        let frame = taken.number();
        space.map_page(page, taken);
        self.phase = Phase::Fill { page, frame };
        self.entry(Some(own), true, What::UseHeld { page, frame, want })
    }

    /// A clean page gives its frame up.
    fn give_up<S: Store + Send + Drop>(
        &self,
        space: &mut Space<S>,
        pool: &mut Pool,
        number: u32,
        page: u32,
    ) -> Entry
        requires number { number ≡ space.old.number }
        requires resident { frame_at space.old page ≢ None }
        requires clean { dirty_at space.old page ≡ false }
        requires none_clearing { space.old.clearing ≡ None }
        requires none_paged { space.old.paged ≡ None }
        requires no_other_pending { (p : ℕ) → space.old.pending ≡ Some p → p ≡ page }
        requires agree { AreAgreed space.old pool.old }
        requires room { pool.old.entries < 2 ^ 45 }
        ensures gave { (frame : ℕ) × (result ≡ give_entry self.now.processor number page frame) × Removes space.old space.new page frame }
        ensures pool { pool.new ≡ counted (give_page pool.old number page) }
    {
        let given = space.remove(page);
        let frame = given.number();
        pool.give(number, page, given);
        pool.end_entry();
        self.entry(Some(number), true, What::Give { page, frame })
    }
}
