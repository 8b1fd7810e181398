//! What lies behind the locks.

ghost use Rattle.std.specs.Prelude.{◌≡◌, ◌<◌, true, Some, None};
ghost use Rattle.flight_core.specs.declared.flight.Needs.TheVariants.{Both, Frames};
ghost use Rattle.flight_core.specs.Lacking.{NeverLacks};
ghost use Rattle.flight_core.specs.Rows.{row_of, space_under};
ghost use Rattle.pager_locks.specs.Locked.{Departure, IsPoolAt, IsLockedSpace, IsLockedPool, IsFlying, IsHere, Stepped};

use crate::naming::{Named, Place};
use crate::steps::{step_alone, step_both, step_frames};
use flight_core::{Flight, Needs};
use frame_pool::Pool;
use journal_core::{Author, Journal, Pass};
use space_core::Space;
use std::marker::{Model, PhantomData};
use std::sync::{Mutex, Wait};
use store_core::Store;

/// The pool, with the author of the frames. It lies behind the pool's lock, which is taken for a single step, under a space's lock or alone.
#[derive(Drop)]
pub struct LockedPool<N: Named> {
    // Guarded by the pool's lock: whenever it is free, the pool stands for the author's list.
    pool: Pool,
    // Guarded by the pool's lock: the author is away only while a step uses it.
    author: Option<Author>,
    of: PhantomData<N>,
}

impl<N: Named> Model for LockedPool<N> {
    ghost use Rattle.pager_model.specs.FrameStates.{FrameState};

    ghost Value = { FrameState };

    ghost use Rattle.pager_locks.specs.Locked.{Departure, IsLockedPool};

    ghost view = { λ l. l.pool };

    ghost invariant = { λ l. IsLockedPool N.journal l.pool l.author };
}

impl<N: Named> LockedPool<N> {
    /// The pool, with the author of the frames' part.
    pub fn new(pool: Pool, author: Author) -> LockedPool<N>
        requires { IsPoolAt N.journal pool author }
        ensures { result ≡ pool }
    {
        LockedPool {
            pool,
            author: Some(author),
            of: PhantomData,
        }
    }

    /// Does the flight's next step, which is made under this lock and that of the space.
    fn step<S: Store + Send + Drop>(
        &mut self,
        journal: &Journal,
        space: &mut Space<S>,
        author: Author,
        flight: &mut Flight,
        pass: Pass,
    ) -> (Author, Pass)
        requires journal { journal.now.name ≡ N.journal }
        requires here { (from : Departure) × IsHere N.journal space.old author from flight.old pass }
        requires needs { (row_of flight.old).needs ≡ Both space.old.number }
        ensures stepped { Stepped N.journal space.new result.0 flight.new }
        ensures part { result.0.part ≡ author.part }
        ensures flying { (from : Departure) → IsFlying N.journal from flight.old pass → IsFlying N.journal from flight.new result.1 }
        ensures lasting { S.lasts ≡ true → NeverLacks flight.old.phase flight.new.phase }
        ensures nearer { (row_of flight.new).steps < (row_of flight.old).steps }
    {
        let Some(frames) = self.author.take() else {
            unreachable!()
        };
        let (author, frames, pass) = step_both(
            journal,
            space,
            &mut self.pool,
            author,
            frames,
            flight,
            pass,
        );
        self.author = Some(frames);
        (author, pass)
    }

    /// Does the flight's next step, which is made under this lock alone.
    pub fn step_alone(&mut self, journal: &Journal, flight: &mut Flight, pass: Pass) -> Pass
        requires journal { journal.now.name ≡ N.journal }
        requires flying { (from : Departure) × IsFlying N.journal from flight.old pass }
        requires needs { (row_of flight.old).needs ≡ Frames }
        ensures flying { (from : Departure) → IsFlying N.journal from flight.old pass → IsFlying N.journal from flight.new result }
        ensures left { (row_of flight.new).keeps ≡ None }
        ensures never_lacks { NeverLacks flight.old.phase flight.new.phase }
        ensures nearer { (row_of flight.new).steps < (row_of flight.old).steps }
    {
        let Some(frames) = self.author.take() else {
            unreachable!()
        };
        let (frames, pass) = step_frames(journal, &mut self.pool, frames, flight, pass);
        self.author = Some(frames);
        pass
    }

    /// The pool, and the author of the frames.
    pub fn into_parts(self) -> (Pool, Author)
        ensures { IsPoolAt N.journal result.0 result.1 }
    {
        let LockedPool {
            pool,
            author,
            of: _,
        } = self;
        let Some(author) = author else { unreachable!() };
        (pool, author)
    }
}

/// A space, with the author of its part. It lies behind the space's lock, which a thread takes when it has none.
#[derive(Drop)]
pub struct LockedSpace<N: Named, P: Place, S: Store + Send + Drop> {
    // Guarded by the space's lock: whenever it is free, the space is at rest after the author's list.
    space: Space<S>,
    // Guarded by the space's lock: the author is away only while a flight's steps use it.
    author: Option<Author>,
    of: PhantomData<(N, P)>,
}

impl<N: Named, P: Place, S: Store + Send + Drop> Model for LockedSpace<N, P, S> {
    ghost use Rattle.space_core.specs.Standing.{Kept};

    ghost Value = { Kept };

    ghost use Rattle.pager_locks.specs.Locked.{Departure, IsLockedSpace};

    ghost view = { λ l. l.space };

    ghost invariant = { λ l. IsLockedSpace N.journal P.number l.space l.author };
}

impl<N: Named, P: Place, S: Store + Send + Drop> LockedSpace<N, P, S> {
    /// The space, with its part's author.
    pub fn new(space: Space<S>, author: Author) -> LockedSpace<N, P, S>
        requires { IsLockedSpace N.journal P.number space (Some author) }
        ensures { result ≡ space }
    {
        LockedSpace {
            space,
            author: Some(author),
            of: PhantomData,
        }
    }

    /// Does the flight's steps here until it leaves the space.
    pub fn fly<R: Wait>(
        &mut self,
        rt: &R,
        journal: &Journal,
        pool: &Mutex<LockedPool<N>>,
        flight: &mut Flight,
        pass: Pass,
    ) -> Pass
        requires journal { journal.now.name ≡ N.journal }
        requires flying { (from : Departure) × IsFlying N.journal from flight.old pass }
        requires under { space_under (row_of flight.old).needs ≡ Some P.number }
        requires keeps { (row_of flight.old).keeps ≡ None }
        ensures flying { (from : Departure) → IsFlying N.journal from flight.old pass → IsFlying N.journal from flight.new result }
        ensures left { (row_of flight.new).keeps ≡ None }
        ensures lasting { S.lasts ≡ true → NeverLacks flight.old.phase flight.new.phase }
        ensures nearer { (row_of flight.new).steps < (row_of flight.old).steps }
    {
        let Some(author) = self.author.take() else {
            unreachable!()
        };
        let (author, pass) = stretch(rt, journal, pool, &mut self.space, author, flight, pass);
        self.author = Some(author);
        pass
    }

    /// The space, and its author.
    pub fn into_parts(self) -> (Space<S>, Author)
        ensures { IsLockedSpace N.journal P.number result.0 (Some result.1) }
    {
        let LockedSpace {
            space,
            author,
            of: _,
        } = self;
        let Some(author) = author else { unreachable!() };
        (space, author)
    }
}

/// Does the flight's steps in a space, of which the first is made there, until it leaves the space.
fn stretch<N: Named, S: Store + Send + Drop, R: Wait>(
    rt: &R,
    journal: &Journal,
    pool: &Mutex<LockedPool<N>>,
    space: &mut Space<S>,
    author: Author,
    flight: &mut Flight,
    pass: Pass,
) -> (Author, Pass)
    requires journal { journal.now.name ≡ N.journal }
    requires here { (from : Departure) × IsHere N.journal space.old author from flight.old pass }
    ensures stepped { Stepped N.journal space.new result.0 flight.new }
    ensures part { result.0.part ≡ author.part }
    ensures flying { (from : Departure) → IsFlying N.journal from flight.old pass → IsFlying N.journal from flight.new result.1 }
    ensures left { (row_of flight.new).keeps ≡ None }
    ensures lasting { S.lasts ≡ true → NeverLacks flight.old.phase flight.new.phase }
    ensures nearer { (row_of flight.new).steps < (row_of flight.old).steps }
{
    let mut author = author;
    let mut pass = pass;
    loop {
        let (next_author, next_pass) = step(rt, journal, pool, space, author, flight, pass);
        author = next_author;
        pass = next_pass;
        if flight.keeps().is_none() {
            return (author, pass);
        }
    }
}

/// Does the flight's next step in a space, with the pool's lock where the step is made under it.
fn step<N: Named, S: Store + Send + Drop, R: Wait>(
    rt: &R,
    journal: &Journal,
    pool: &Mutex<LockedPool<N>>,
    space: &mut Space<S>,
    author: Author,
    flight: &mut Flight,
    pass: Pass,
) -> (Author, Pass)
    requires journal { journal.now.name ≡ N.journal }
    requires here { (from : Departure) × IsHere N.journal space.old author from flight.old pass }
    ensures stepped { Stepped N.journal space.new result.0 flight.new }
    ensures part { result.0.part ≡ author.part }
    ensures flying { (from : Departure) → IsFlying N.journal from flight.old pass → IsFlying N.journal from flight.new result.1 }
    ensures lasting { S.lasts ≡ true → NeverLacks flight.old.phase flight.new.phase }
    ensures nearer { (row_of flight.new).steps < (row_of flight.old).steps }
{
    match flight.needs() {
        Needs::Space(_) => step_alone(journal, space, author, flight, pass),
        Needs::Both(_) => pool.lock(rt).step(journal, space, author, flight, pass),
        Needs::Frames | Needs::Ended => unreachable!(),
    }
}
