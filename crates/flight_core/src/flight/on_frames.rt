//! The steps that look at the frames alone, whether or not a space's lock is held too.

ghost use Rattle.std.specs.Prelude.{◌≡◌, ◌^◌, ◌<◌, true, false, IfSome, IfNone, length};
ghost use Rattle.pager_model.specs.declared.entry.Victim.{Victim};
ghost use Rattle.pager_model.specs.Agreement.{OwnsBy};
ghost use Rattle.pager_model.specs.declared.entry.Want.{Want as Item};
ghost use Rattle.pager_model.specs.FrameStates.{IsFull, has_evictable, is_short};
ghost use Rattle.pager_model.specs.SpaceStates.{SpaceState};
ghost use Rattle.space_core.specs.Standing.{Kept};
ghost use Rattle.flight_core.specs.Flights.{Fits, IsReady};
ghost use Rattle.flight_core.specs.Rows.{evictions_in, given_up, is_of_call, mark_in, row_of};
ghost use Rattle.flight_core.specs.Steps.{AreAgreed, Makes, MakesOnFrames, Passes, RowMakes, RowPasses};

use super::{Flight, Phase, Purpose};
use frame_pool::{Collected, Pool};
use pager_model::{Call, Entry, Need, Victim, What};

impl Flight {
    /// Claims the victim's frame for the page, or finds that none can be had, and how many are wired, claimed and held.
    pub(super) fn claim(&mut self, pool: &mut Pool, page: u32) -> Entry
        requires of_call { is_of_call self.old.purpose ≡ true }
        requires phase { (want : Item) × (self.old.phase ≡ Phase.Frame page want) }
        requires full { IsFull pool.old }
        requires owns { OwnsBy pool.old self.old.processor (row_of self.old).progress.doing }
        requires known { self.old.processor < length pool.old.held }
        requires room { pool.old.entries < 2 ^ 45 }
        ensures entry { (kept : Kept) (st : SpaceState) → IsReady self.old kept st → AreAgreed kept pool.old → Makes self.old self.new kept kept st pool.old pool.new result }
        ensures row { RowMakes self.old.purpose self.old.phase result.what self.new.phase }
        ensures nearer { (row_of self.new).steps < (row_of self.old).steps }
    {
        match pool.claim(self.processor) {
            Ok(victim) => {
                let call = self.call();
                let claimed = true;
                self.purpose = Purpose::Call { call, claimed };
                self.phase = Phase::Out { victim };
                let writing = matches!(call, Call::Store { .. });
                self.entry(
                    Some(call.space()),
                    true,
                    What::Claim {
                        space: victim.space,
                        page: victim.page,
                        frame: victim.frame,
                        need: Some(Need { page, writing }),
                    },
                )
            }
            Err(none) => {
                pool.end_entry();
                let (wired, claimed, held) = (none.wired, none.claimed, none.held);
                self.phase = Phase::Short {
                    wired,
                    claimed,
                    held,
                };
                self.entry(
                    None,
                    true,
                    What::Refused {
                        wired,
                        claimed,
                        held,
                    },
                )
            }
        }
    }

    /// Gets the victim's frame where its page gave it up meanwhile, and else finds that the page has to be paged out.
    pub(super) fn collect(&mut self, pool: &mut Pool, victim: Victim) -> Option<Entry>
        requires phase { self.old.phase ≡ Phase.Out victim }
        requires owns { OwnsBy pool.old self.old.processor (row_of self.old).progress.doing }
        requires room { pool.old.entries < 2 ^ 45 }
        ensures entry { IfSome result (λ e. (kept : Kept) (st : SpaceState) → IsReady self.old kept st → AreAgreed kept pool.old → Makes self.old self.new kept kept st pool.old pool.new e) }
        ensures none { IfNone result ((pool.new ≡ pool.old) × ((kept : Kept) (st : SpaceState) → IsReady self.old kept st → AreAgreed kept pool.old → Passes self.old self.new kept kept st)) }
        ensures row { IfSome result (λ e. RowMakes self.old.purpose self.old.phase e.what self.new.phase) }
        ensures row_passed { IfNone result (RowPasses self.old.phase self.new.phase) }
        ensures nearer { (row_of self.new).steps < (row_of self.old).steps }
    {
        match pool.collect(self.processor) {
            Collected::Held => {
                pool.end_entry();
                self.phase = self.won(victim);
                let frame = victim.frame;
                Some(self.entry(None, true, What::Got { frame }))
            }
            Collected::Claimed => {
                self.phase = Phase::Write { victim };
                None
            }
        }
    }

    /// The victim's frame is claimed no longer.
    pub(super) fn unclaim(&mut self, pool: &mut Pool, victim: Victim, fault: Option<u64>) -> Entry
        requires phase { self.old.phase ≡ Phase.Unclaim victim fault }
        requires ready { (kept : Kept) × (st : SpaceState) × IsReady self.old kept st × AreAgreed kept pool.old }
        requires owns { OwnsBy pool.old self.old.processor (row_of self.old).progress.doing }
        requires room { pool.old.entries < 2 ^ 45 }
        ensures entry { (kept : Kept) (st : SpaceState) → IsReady self.old kept st → AreAgreed kept pool.old → Makes self.old self.new kept kept st pool.old pool.new result }
        ensures row { RowMakes self.old.purpose self.old.phase result.what self.new.phase }
        ensures nearer { (row_of self.new).steps < (row_of self.old).steps }
    {
        let frame = pool.unclaim(self.processor);
        self.phase = self.given_up(victim.space, fault);
        self.entry(Some(victim.space), true, What::Unclaim { frame })
    }

    /// A call lets the frame that it holds go free.
    pub(super) fn drop_held(&mut self, pool: &mut Pool) -> Entry
        requires of_call { is_of_call self.old.purpose ≡ true }
        requires phase { (victim : Victim) × (self.old.phase ≡ Phase.Drop victim) }
        requires owns { OwnsBy pool.old self.old.processor (row_of self.old).progress.doing }
        requires room { pool.old.entries < 2 ^ 45 }
        ensures entry { (kept : Kept) (st : SpaceState) → IsReady self.old kept st → Makes self.old self.new kept kept st pool.old pool.new result }
        ensures row { RowMakes self.old.purpose self.old.phase result.what self.new.phase }
        ensures nearer { (row_of self.new).steps < (row_of self.old).steps }
    {
        let frame = pool.drop_held(self.processor);
        self.phase = Phase::Late;
        self.entry(None, true, What::DropHeld { frame })
    }

    /// A turn claims the victim's frame where frames are short by its mark, of which it has made fewer evictions, and else rests.
    pub(super) fn look(&mut self, pool: &mut Pool, mark: u32, evictions: u32) -> Entry
        requires phase { self.old.phase ≡ Phase.Look }
        requires purpose { self.old.purpose ≡ Purpose.Turn mark evictions }
        requires fits { Fits self.old }
        requires owns { OwnsBy pool.old self.old.processor (row_of self.old).progress.doing }
        requires known { self.old.processor < length pool.old.held }
        requires room { pool.old.entries < 2 ^ 45 }
        ensures entry { MakesOnFrames self.old self.new pool.old pool.new result }
        ensures row { RowMakes self.old.purpose self.old.phase result.what self.new.phase }
        ensures nearer { (row_of self.new).steps < (row_of self.old).steps }
    {
        let short = pool.is_short(mark) && pool.has_victim();
        if short && evictions < mark {
            return self.claim_for_turn(pool);
        }
        pool.end_entry();
        self.phase = Phase::Rested;
        self.entry(None, true, What::Rest { short })
    }

    /// A turn claims the victim's frame.
    fn claim_for_turn(&mut self, pool: &mut Pool) -> Entry
        requires phase { self.old.phase ≡ Phase.Look }
        requires turn { is_of_call self.old.purpose ≡ false }
        requires fits { Fits self.old }
        requires fewer { evictions_in self.old.purpose < mark_in self.old.purpose }
        requires short { is_short pool.old (mark_in self.old.purpose) ≡ true }
        requires victim { has_evictable pool.old ≡ true }
        requires owns { OwnsBy pool.old self.old.processor (row_of self.old).progress.doing }
        requires known { self.old.processor < length pool.old.held }
        requires room { pool.old.entries < 2 ^ 45 }
        ensures entry { MakesOnFrames self.old self.new pool.old pool.new result }
        ensures row { RowMakes self.old.purpose self.old.phase result.what self.new.phase }
        ensures nearer { (row_of self.new).steps < (row_of self.old).steps }
    {
        let Ok(victim) = pool.claim(self.processor) else {
            unreachable!()
        };
        self.phase = Phase::Out { victim };
        self.entry(
            None,
            true,
            What::Claim {
                space: victim.space,
                page: victim.page,
                frame: victim.frame,
                need: None,
            },
        )
    }

    /// A turn lets the frame that it holds go free, and looks again.
    pub(super) fn let_go(&mut self, pool: &mut Pool, mark: u32, evictions: u32) -> Entry
        requires phase { (victim : Victim) × (self.old.phase ≡ Phase.Drop victim) }
        requires purpose { self.old.purpose ≡ Purpose.Turn mark evictions }
        requires fits { Fits self.old }
        requires owns { OwnsBy pool.old self.old.processor (row_of self.old).progress.doing }
        requires room { pool.old.entries < 2 ^ 45 }
        ensures entry { MakesOnFrames self.old self.new pool.old pool.new result }
        ensures row { RowMakes self.old.purpose self.old.phase result.what self.new.phase }
        ensures nearer { (row_of self.new).steps < (row_of self.old).steps }
    {
        let frame = pool.drop_held(self.processor);
        let evictions = evictions + 1;
        self.purpose = Purpose::Turn { mark, evictions };
        self.phase = Phase::Look;
        self.entry(None, true, What::DropHeld { frame })
    }

    /// What the flight does once it gave its claim up of a frame in this space.
    fn given_up(&self, space: u32, fault: Option<u64>) -> Phase
        ensures { (v : Victim) → v.space ≡ space → result ≡ given_up self.now.purpose v fault }
    {
        match (self.purpose, fault) {
            (Purpose::Turn { .. }, _) => Phase::Rested,
            (Purpose::Call { .. }, Some(count)) => Phase::Fault { space, count },
            (Purpose::Call { .. }, None) => Phase::Lack { space },
        }
    }
}
