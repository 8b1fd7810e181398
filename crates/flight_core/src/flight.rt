//! A call or a daemon's turn in progress: its phases, what each step is made under, and which step a phase makes. The steps themselves stand in
//! the modules below, by what they look at.

ghost use Rattle.std.specs.Prelude.{◌≡◌, ◌^◌, ◌<◌, true, IfSome, IfNone, length};
ghost use Rattle.pager_model.specs.Agreement.{OwnsBy};
ghost use Rattle.pager_model.specs.FrameStates.{FrameState};
ghost use Rattle.pager_model.specs.SpaceStates.{SpaceState};
ghost use Rattle.pager_model.specs.CallEntries.{answer_entry};
ghost use Rattle.flight_core.specs.Flights.{Fits, IsReady};
ghost use Rattle.flight_core.specs.Lacking.{NeverLacks};
ghost use Rattle.flight_core.specs.Rows.{alone, both, call_in, has_ended, is_of_call, new_flight, new_turn, own_space, reply_in, row_of, space_under, won};
ghost use Rattle.pager_model.specs.Flat.{space_of_call};
ghost use Rattle.pager_model.specs.Locks.{own_if};
ghost use Rattle.flight_core.specs.Steps.{AreAgreed, Makes, MakesOnFrames, Passes, RowMakes, RowPasses, reads_at, writes_at, FaultsTold};
ghost use Rattle.space_core.specs.Beginning.{LacksItsMemory, SameStore};
ghost use Rattle.space_core.specs.Standing.{one_more_if};

mod on_both;
mod on_frames;
mod on_space;

use frame_pool::Pool;
use pager_model::{Answered, Call, Entry, Reply, Victim, Want, What};
use space_core::Space;
use store_core::Store;

/// How far a flight is.
#[derive(Clone, Copy)]
pub enum Phase {
    /// Nothing was done.
    Start,
    /// The call evicts this page, which is equal to its copy and has to give its frame up.
    Evict {
        page: u32,
    },
    /// The call unmaps the region of this range, or discards the range, whose pages have to give their frames up.
    Clear {
        first: u32,
        length: u32,
    },
    /// The call wires the region of this range, or unwires it: its frames have to be wired, or to be so no longer.
    Pin {
        first: u32,
        length: u32,
        wired: bool,
    },
    /// The call wires the region of this range, and the frame of this page of it is claimed.
    Busy {
        first: u32,
        length: u32,
        page: u32,
    },
    /// No page of the range that the call needed cleared is resident, or the frames of its region are wired, or are so no longer, as it says.
    Gone {
        first: u32,
        length: u32,
    },
    /// The call is a lawful access to a page that isn't resident.
    Frame {
        page: u32,
        want: Want,
    },
    /// No frame could be had.
    Short {
        wired: u32,
        claimed: u32,
        held: u32,
    },
    /// The page has this frame, and its copy isn't read in.
    Fill {
        page: u32,
        frame: u32,
    },
    /// The read of the page's copy failed, and it has to give its frame up.
    Unfill {
        page: u32,
        frame: u32,
        count: u64,
    },
    /// The victim's frame is claimed, and its page has to be paged out, where it has the frame still.
    Out {
        victim: Victim,
    },
    /// The victim's page has to be made equal to its copy.
    Write {
        victim: Victim,
    },
    /// The victim's page is equal to its copy, and has to give its frame up.
    Hand {
        victim: Victim,
    },
    /// The write of the victim's page failed, as its store's failure of this count, or found no memory: the claim has to be given up.
    Unclaim {
        victim: Victim,
        fault: Option<u64>,
    },
    /// The victim's frame is held, and the call has to be looked at again.
    Back {
        victim: Victim,
    },
    /// The held frame has to go free: a call doesn't need it any more, and a turn holds it for nothing else.
    Drop {
        victim: Victim,
    },
    /// The held frame was dropped, and the call has to be answered.
    Late,
    /// The held frame is needed still.
    Use {
        page: u32,
        want: Want,
        victim: Victim,
    },
    /// The store of this space failed, with this count.
    Fault {
        space: u32,
        count: u64,
    },
    /// There was no memory to page out a page of this space.
    Lack {
        space: u32,
    },
    /// A turn looks whether frames are short, and claims one where they are.
    Look,
    /// The turn has ended.
    Rested,
    /// The call was answered.
    Ended {
        reply: Reply,
    },
}

/// What the next step is made under.
#[derive(Clone, Copy)]
pub enum Needs {
    /// The lock of a space.
    Space(u32),
    /// The lock of a space, and that of the frames.
    Both(u32),
    /// The lock of the frames.
    Frames,
    /// There is no next step.
    Ended,
}

/// What a flight is for.
#[derive(Clone, Copy)]
pub enum Purpose {
    /// A call of a processor, and whether a frame was claimed for it.
    Call { call: Call, claimed: bool },
    /// A turn of a paging daemon with this low mark, in which so many pages were evicted.
    Turn { mark: u32, evictions: u32 },
}

/// One call of a processor, or one turn of a paging daemon, in progress.
#[derive(Clone, Copy)]
pub struct Flight {
    pub processor: u32,
    /// The number of the call or of the turn, counted from 0 by its processor.
    pub number: u32,
    pub purpose: Purpose,
    pub phase: Phase,
}

impl Flight {
    /// The processor's call of this number, counted from 0, of which nothing was done.
    pub fn of_call(processor: u32, number: u32, call: Call) -> Flight
        ensures { result ≡ new_flight processor number call }
    {
        Flight {
            processor,
            number,
            purpose: Purpose::Call {
                call,
                claimed: false,
            },
            phase: Phase::Start,
        }
    }

    /// The processor's turn of this number, counted from 0, of a paging daemon with this low mark, 1 at least, of which nothing was done.
    pub fn of_turn(processor: u32, number: u32, mark: u32) -> Flight
        ensures { result ≡ new_turn processor number mark }
    {
        Flight {
            processor,
            number,
            purpose: Purpose::Turn { mark, evictions: 0 },
            phase: Phase::Look,
        }
    }

    /// The call, of a flight of a call.
    fn call(&self) -> Call
        requires { is_of_call self.now.purpose ≡ true }
        ensures { result ≡ call_in self.now.purpose }
    {
        let Purpose::Call { call, .. } = self.purpose else {
            unreachable!()
        };
        call
    }

    /// Its space.
    fn own(&self) -> u32
        requires { is_of_call self.now.purpose ≡ true }
        ensures { result ≡ space_of_call (call_in self.now.purpose) }
    {
        self.call().space()
    }

    /// The space of the call; a turn has none of its own.
    fn own_space(&self) -> Option<u32>
        ensures { result ≡ own_space self.now.purpose }
    {
        match self.purpose {
            Purpose::Call { call, .. } => Some(call.space()),
            Purpose::Turn { .. } => None,
        }
    }

    /// What the next step is made under.
    pub fn needs(&self) -> Needs
        ensures { result ≡ (row_of self.now).needs }
    {
        match self.phase {
            Phase::Write { victim } => Needs::Space(victim.space),
            Phase::Out { victim } | Phase::Hand { victim } | Phase::Unclaim { victim, .. } => {
                Needs::Both(victim.space)
            }
            Phase::Evict { .. }
            | Phase::Clear { .. }
            | Phase::Pin { .. }
            | Phase::Frame { .. }
            | Phase::Unfill { .. }
            | Phase::Drop { .. }
            | Phase::Use { .. } => both(self.own_space()),
            Phase::Ended { .. } | Phase::Rested => Needs::Ended,
            _ => alone(self.own_space()),
        }
    }

    /// The space whose lock the next step is made under, where it is made under one.
    pub fn under(&self) -> Option<u32>
        ensures { result ≡ space_under (row_of self.now).needs }
    {
        match self.needs() {
            Needs::Space(space) | Needs::Both(space) => Some(space),
            Needs::Frames | Needs::Ended => None,
        }
    }

    /// The space whose lock the flight goes on holding between two steps.
    pub fn keeps(&self) -> Option<u32>
        ensures { result ≡ (row_of self.now).keeps }
    {
        let own = self.own_space();
        match self.phase {
            Phase::Start | Phase::Look | Phase::Rested | Phase::Ended { .. } => None,
            Phase::Write { victim } | Phase::Hand { victim } | Phase::Unclaim { victim, .. } => {
                Some(victim.space)
            }
            Phase::Out { victim } | Phase::Back { victim } => own_if(own, victim.space),
            Phase::Fault { space, .. } | Phase::Lack { space } => own_if(own, space),
            _ => own,
        }
    }

    /// Whether the call was answered, or the turn has ended.
    pub fn has_ended(&self) -> bool
        ensures { result ≡ has_ended (row_of self.now).outcome }
    {
        matches!(self.phase, Phase::Ended { .. } | Phase::Rested)
    }

    /// What the call was answered, once it was.
    pub fn reply(&self) -> Option<Reply>
        ensures { result ≡ reply_in (row_of self.now).outcome }
    {
        match self.phase {
            Phase::Ended { reply } => Some(reply),
            _ => None,
        }
    }

    /// Does the next step under the lock of a space, by its row of the table: makes one entry on it, or finds what the call needs next. The space's
    /// store is read once to fill a page, written once to copy a dirty one, and else neither; and it fails only where the entry tells it.
    pub fn step_space<S: Store + Send + Drop>(&mut self, space: &mut Space<S>) -> Option<Entry>
        requires needs { (row_of self.old).needs ≡ Needs.Space space.old.number }
        requires image { self.old.processor < length space.old.images }
        requires ready { (st : SpaceState) × IsReady self.old space.old st }
        ensures entry { IfSome result (λ e. (st : SpaceState) (frames : FrameState) → IsReady self.old space.old st → Makes self.old self.new space.old space.new st frames frames e) }
        ensures none { IfNone result ((st : SpaceState) → IsReady self.old space.old st → Passes self.old self.new space.old space.new st) }
        ensures row { IfSome result (λ e. RowMakes self.old.purpose self.old.phase e.what self.new.phase) }
        ensures row_passed { IfNone result (RowPasses self.old.phase self.new.phase) }
        ensures reads { space.new.reads ≡ one_more_if (reads_at self.old.phase) space.old.reads }
        ensures writes { space.new.writes ≡ one_more_if (writes_at space.old (call_in self.old.purpose) self.old.phase) space.old.writes }
        ensures faults { IfSome result (λ e. FaultsTold space.old.store.faults space.new.store.faults e.what) }
        ensures unfailed { IfNone result (space.new.store.faults ≡ space.old.store.faults) }
        ensures memory { self.old.phase ≡ Phase.Start → self.new.phase ≡ Phase.Ended Reply.NoMemory → LacksItsMemory space.old (call_in self.old.purpose) }
        ensures lasting { S.lasts ≡ true → NeverLacks self.old.phase self.new.phase }
        ensures nearer { (row_of self.new).steps < (row_of self.old).steps }
    {
        match self.phase {
            Phase::Start => self.start(space),
            Phase::Write { victim } => self.write(space, victim),
            Phase::Back { victim } => self.look_again(space, victim),
            Phase::Gone { .. } => Some(self.conclude(space)),
            Phase::Fill { page, frame } => Some(self.fill(space, page, frame)),
            Phase::Late => Some(self.answer_late(space)),
            Phase::Short {
                wired,
                claimed,
                held,
            } => Some(self.refuse(Reply::NoFrames {
                wired,
                claimed,
                held,
            })),
            Phase::Fault { space, count } => Some(self.refuse(Reply::StoreFault { space, count })),
            Phase::Lack { .. } => Some(self.refuse(Reply::NoMemory)),
            Phase::Busy { page, .. } => Some(self.refuse(Reply::Busy { page })),
            _ => unreachable!(),
        }
    }

    /// Does the next step under the lock of a space and that of the frames, by its row of the table: makes one entry on both or on one of them, or
    /// finds what the call needs next. The space's store is neither read nor written.
    pub fn step_both<S: Store + Send + Drop>(
        &mut self,
        space: &mut Space<S>,
        pool: &mut Pool,
    ) -> Option<Entry>
        requires needs { (row_of self.old).needs ≡ Needs.Both space.old.number }
        requires image { self.old.processor < length space.old.images }
        requires ready { (st : SpaceState) × IsReady self.old space.old st }
        requires agree { AreAgreed space.old pool.old }
        requires owns { OwnsBy pool.old self.old.processor (row_of self.old).progress.doing }
        requires known { self.old.processor < length pool.old.held }
        requires room { pool.old.entries < 2 ^ 45 }
        ensures entry { IfSome result (λ e. (st : SpaceState) → IsReady self.old space.old st → Makes self.old self.new space.old space.new st pool.old pool.new e) }
        ensures none { IfNone result ((pool.new ≡ pool.old) × ((st : SpaceState) → IsReady self.old space.old st → Passes self.old self.new space.old space.new st)) }
        ensures row { IfSome result (λ e. RowMakes self.old.purpose self.old.phase e.what self.new.phase) }
        ensures row_passed { IfNone result (RowPasses self.old.phase self.new.phase) }
        ensures same_store { SameStore space.old space.new }
        ensures never_lacks { NeverLacks self.old.phase self.new.phase }
        ensures nearer { (row_of self.new).steps < (row_of self.old).steps }
    {
        match self.phase {
            Phase::Out { victim } => self.collect(pool, victim),
            Phase::Evict { page } => Some(self.evict(space, pool, page)),
            Phase::Clear { first, length } => Some(self.clear(space, pool, first, length)),
            Phase::Pin {
                first,
                length,
                wired,
            } => Some(self.pin(space, pool, first, length, wired)),
            Phase::Frame { page, want } => Some(self.take(space, pool, page, want)),
            Phase::Unfill { page, count, .. } => Some(self.unfill(space, pool, page, count)),
            Phase::Hand { victim } => Some(self.hand(space, pool, victim)),
            Phase::Unclaim { victim, fault } => Some(self.unclaim(pool, victim, fault)),
            Phase::Drop { .. } => Some(self.drop_held(pool)),
            Phase::Use { page, want, .. } => Some(self.use_held(space, pool, page, want)),
            _ => unreachable!(),
        }
    }

    /// Does the next step under the frames' lock alone, which a turn makes, by its row of the table: it makes one entry.
    pub fn step_frames(&mut self, pool: &mut Pool) -> Entry
        requires needs { (row_of self.old).needs ≡ Needs.Frames }
        requires fits { Fits self.old }
        requires owns { OwnsBy pool.old self.old.processor (row_of self.old).progress.doing }
        requires known { self.old.processor < length pool.old.held }
        requires room { pool.old.entries < 2 ^ 45 }
        ensures entry { MakesOnFrames self.old self.new pool.old pool.new result }
        ensures row { RowMakes self.old.purpose self.old.phase result.what self.new.phase }
        ensures never_lacks { NeverLacks self.old.phase self.new.phase }
        ensures nearer { (row_of self.new).steps < (row_of self.old).steps }
    {
        match (self.purpose, self.phase) {
            (Purpose::Turn { mark, evictions }, Phase::Look) => self.look(pool, mark, evictions),
            (Purpose::Turn { mark, evictions }, Phase::Drop { .. }) => {
                self.let_go(pool, mark, evictions)
            }
            _ => unreachable!(),
        }
    }

    /// An entry of the flight's processor.
    fn entry(&self, space: Option<u32>, frames: bool, what: What) -> Entry
        ensures { result ≡ record { processor = self.now.processor; space = space; frames = frames; what = what } }
    {
        Entry {
            processor: self.processor,
            space,
            frames,
            what,
        }
    }

    /// Answers the call.
    fn answer(&mut self, answered: Answered) -> Entry
        requires of_call { is_of_call self.old.purpose ≡ true }
        ensures entry { result ≡ answer_entry self.old.processor self.old.number (call_in self.old.purpose) answered }
        ensures ended { self.new ≡ record self.old { phase = Phase.Ended answered.reply } }
    {
        let call = self.call();
        let reply = answered.reply;
        self.phase = Phase::Ended { reply };
        let what = What::Answer {
            number: self.number,
            call,
            answered,
        };
        self.entry(Some(call.space()), false, what)
    }

    /// What the flight does with the victim's frame, once it holds it.
    fn won(&self, victim: Victim) -> Phase
        ensures { result ≡ won self.now.purpose victim }
    {
        match self.purpose {
            Purpose::Call { .. } => Phase::Back { victim },
            Purpose::Turn { .. } => Phase::Drop { victim },
        }
    }
}

/// A step under a space's lock alone, and where there is no space under the frames'.
fn alone(space: Option<u32>) -> Needs
    ensures { result ≡ alone space }
{
    space.map_or(Needs::Frames, Needs::Space)
}

/// A step under a space's lock and the frames', and where there is no space under the frames' alone.
fn both(space: Option<u32>) -> Needs
    ensures { result ≡ both space }
{
    space.map_or(Needs::Frames, Needs::Both)
}

/// The space, where it is the call's own: what goes on in another one after this keeps no lock between.
fn own_if(own: Option<u32>, space: u32) -> Option<u32>
    ensures { result ≡ own_if own space }
{
    own.filter(|own| *own == space)
}
