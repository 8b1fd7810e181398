//! The locks of the spaces. What lies behind one has the space's number in its type, so each space has a field of its own.

ghost use Rattle.std.specs.Prelude.{◌≡◌, ◌<◌, ◌≤◌, ◌+◌, ◌*◌, true, is_some, [], length, vec_capacity, Some, None};
ghost use Rattle.pager_model.specs.Bounds.{most_spaces};
ghost use Rattle.flight_core.specs.Lacking.{NeverLacks};
ghost use Rattle.flight_core.specs.Rows.{row_of, space_under};
ghost use Rattle.pager_locks.specs.Locked.{Departure, IsFlying};
ghost use Rattle.pager_locks.specs.Locks.{AreThere, AreLeft, AreParts};

use crate::locked::{LockedPool, LockedSpace};
use crate::naming::{Named, Place};
use crate::numbers::{InGroup, One, Three, Two, Zero};
use flight_core::Flight;
use journal_core::{Author, Journal, Pass};
use space_core::Space;
use std::sync::{Mutex, Wait};
use store_core::Store;

/// For each space a lock round it, with the author of its part. Those below the count of the spaces are there. They stand in groups of four,
/// so that what is proved of one group holds of all.
#[derive(Drop)]
pub struct Locks<N: Named, S: Store + Send + Drop> {
    from0: LockGroup<N, Zero, S>,
    from4: LockGroup<N, One, S>,
    from8: LockGroup<N, Two, S>,
    from12: LockGroup<N, Three, S>,
    ghost few: { length N.journal.setting.told ≤ most_spaces },
}

impl<N: Named, S: Store + Send + Drop> Locks<N, S> {
    /// Puts the spaces, which stand last first as their authors do, behind their locks. The emptied vectors keep their room.
    pub fn of(spaces: &mut Vec<Space<S>>, authors: &mut Vec<Author>) -> Locks<N, S>
        requires few { length N.journal.setting.told ≤ most_spaces }
        requires left { AreLeft N.journal 0 spaces.old.items authors.old.items }
        ensures empty { (spaces.new.items ≡ []) × (authors.new.items ≡ []) }
        ensures room { (vec_capacity spaces.new ≡ vec_capacity spaces.old) × (vec_capacity authors.new ≡ vec_capacity authors.old) }
    {
        Locks {
            from0: LockGroup::of(spaces, authors),
            from4: LockGroup::of(spaces, authors),
            from8: LockGroup::of(spaces, authors),
            from12: LockGroup::of(spaces, authors),
        }
    }

    /// Does the flight's steps in this space until it leaves the space.
    pub fn fly<R: Wait>(
        &self,
        rt: &R,
        space: u32,
        journal: &Journal,
        pool: &Mutex<LockedPool<N>>,
        flight: &mut Flight,
        pass: Pass,
    ) -> Pass
        requires journal { journal.now.name ≡ N.journal }
        requires flying { (from : Departure) × IsFlying N.journal from flight.old pass }
        requires under { space_under (row_of flight.old).needs ≡ Some space }
        requires keeps { (row_of flight.old).keeps ≡ None }
        ensures flying { (from : Departure) → IsFlying N.journal from flight.old pass → IsFlying N.journal from flight.new result }
        ensures left { (row_of flight.new).keeps ≡ None }
        ensures lasting { S.lasts ≡ true → NeverLacks flight.old.phase flight.new.phase }
        ensures nearer { (row_of flight.new).steps < (row_of flight.old).steps }
    {
        let place = space % 4;
        match space / 4 {
            0 => self.from0.fly(rt, place, journal, pool, flight, pass),
            1 => self.from4.fly(rt, place, journal, pool, flight, pass),
            2 => self.from8.fly(rt, place, journal, pool, flight, pass),
            3 => self.from12.fly(rt, place, journal, pool, flight, pass),
            _ => unreachable!(),
        }
    }

    /// Takes the spaces and their authors out of their locks, into vectors with room for them.
    pub fn into_parts(self, spaces: &mut Vec<Space<S>>, authors: &mut Vec<Author>)
        requires empty { (spaces.old.items ≡ []) × (authors.old.items ≡ []) }
        requires room { (length N.journal.setting.told ≤ vec_capacity spaces.old) × (length N.journal.setting.told ≤ vec_capacity authors.old) }
        ensures parts { AreParts N.journal most_spaces spaces.new.items authors.new.items }
        ensures room { (vec_capacity spaces.new ≡ vec_capacity spaces.old) × (vec_capacity authors.new ≡ vec_capacity authors.old) }
    {
        self.from0.into_parts(spaces, authors);
        self.from4.into_parts(spaces, authors);
        self.from8.into_parts(spaces, authors);
        self.from12.into_parts(spaces, authors);
    }
}

/// The locks of four spaces in a row, from that of space `4 * G.number` on.
#[derive(Drop)]
struct LockGroup<N: Named, G: Place, S: Store + Send + Drop> {
    space0: Option<Mutex<LockedSpace<N, InGroup<G, Zero>, S>>>,
    space1: Option<Mutex<LockedSpace<N, InGroup<G, One>, S>>>,
    space2: Option<Mutex<LockedSpace<N, InGroup<G, Two>, S>>>,
    space3: Option<Mutex<LockedSpace<N, InGroup<G, Three>, S>>>,
    ghost there: { AreThere (length N.journal.setting.told) (4 * G.number)
        (is_some space0) (is_some space1) (is_some space2) (is_some space3) },
}

impl<N: Named, G: Place, S: Store + Send + Drop> LockGroup<N, G, S> {
    /// Puts the next four spaces, as far as there are any left, behind their locks.
    fn of(spaces: &mut Vec<Space<S>>, authors: &mut Vec<Author>) -> LockGroup<N, G, S>
        requires left { AreLeft N.journal (4 * G.number) spaces.old.items authors.old.items }
        ensures left { AreLeft N.journal (4 * G.number + 4) spaces.new.items authors.new.items }
        ensures room { (vec_capacity spaces.new ≡ vec_capacity spaces.old) × (vec_capacity authors.new ≡ vec_capacity authors.old) }
    {
        LockGroup {
            space0: next(spaces, authors),
            space1: next(spaces, authors),
            space2: next(spaces, authors),
            space3: next(spaces, authors),
        }
    }

    /// Does the flight's steps in the space at this place of the four, until it leaves the space.
    fn fly<R: Wait>(
        &self,
        rt: &R,
        place: u32,
        journal: &Journal,
        pool: &Mutex<LockedPool<N>>,
        flight: &mut Flight,
        pass: Pass,
    ) -> Pass
        requires place { place < 4 }
        requires journal { journal.now.name ≡ N.journal }
        requires flying { (from : Departure) × IsFlying N.journal from flight.old pass }
        requires under { space_under (row_of flight.old).needs ≡ Some (4 * G.number + place) }
        requires keeps { (row_of flight.old).keeps ≡ None }
        ensures flying { (from : Departure) → IsFlying N.journal from flight.old pass → IsFlying N.journal from flight.new result }
        ensures left { (row_of flight.new).keeps ≡ None }
        ensures lasting { S.lasts ≡ true → NeverLacks flight.old.phase flight.new.phase }
        ensures nearer { (row_of flight.new).steps < (row_of flight.old).steps }
    {
        match place {
            0 => fly_at(&self.space0, rt, journal, pool, flight, pass),
            1 => fly_at(&self.space1, rt, journal, pool, flight, pass),
            2 => fly_at(&self.space2, rt, journal, pool, flight, pass),
            3 => fly_at(&self.space3, rt, journal, pool, flight, pass),
            _ => unreachable!(),
        }
    }

    /// Puts the four spaces, as far as they are there, and their authors behind the others.
    fn into_parts(self, spaces: &mut Vec<Space<S>>, authors: &mut Vec<Author>)
        requires parts { AreParts N.journal (4 * G.number) spaces.old.items authors.old.items }
        requires room { (length N.journal.setting.told ≤ vec_capacity spaces.old) × (length N.journal.setting.told ≤ vec_capacity authors.old) }
        ensures parts { AreParts N.journal (4 * G.number + 4) spaces.new.items authors.new.items }
        ensures room { (vec_capacity spaces.new ≡ vec_capacity spaces.old) × (vec_capacity authors.new ≡ vec_capacity authors.old) }
    {
        put_back(self.space0, spaces, authors);
        put_back(self.space1, spaces, authors);
        put_back(self.space2, spaces, authors);
        put_back(self.space3, spaces, authors);
    }
}

/// Does the flight's steps in the space that is there, until it leaves the space.
fn fly_at<N: Named, P: Place, S: Store + Send + Drop, R: Wait>(
    locked: &Option<Mutex<LockedSpace<N, P, S>>>,
    rt: &R,
    journal: &Journal,
    pool: &Mutex<LockedPool<N>>,
    flight: &mut Flight,
    pass: Pass,
) -> Pass
    requires there { P.number < length N.journal.setting.told → is_some locked.now ≡ true }
    requires journal { journal.now.name ≡ N.journal }
    requires flying { (from : Departure) × IsFlying N.journal from flight.old pass }
    requires under { space_under (row_of flight.old).needs ≡ Some P.number }
    requires keeps { (row_of flight.old).keeps ≡ None }
    ensures flying { (from : Departure) → IsFlying N.journal from flight.old pass → IsFlying N.journal from flight.new result }
    ensures left { (row_of flight.new).keeps ≡ None }
    ensures lasting { S.lasts ≡ true → NeverLacks flight.old.phase flight.new.phase }
    ensures nearer { (row_of flight.new).steps < (row_of flight.old).steps }
{
    let Some(locked) = locked else { unreachable!() };
    locked.lock(rt).fly(rt, journal, pool, flight, pass)
}

/// The last of the spaces, which stand last first, behind a lock with its author, where one is left.
fn next<N: Named, P: Place, S: Store + Send + Drop>(
    spaces: &mut Vec<Space<S>>,
    authors: &mut Vec<Author>,
) -> Option<Mutex<LockedSpace<N, P, S>>>
    requires left { AreLeft N.journal P.number spaces.old.items authors.old.items }
    ensures left { AreLeft N.journal (P.number + 1) spaces.new.items authors.new.items }
    ensures there { P.number < length N.journal.setting.told → is_some result ≡ true }
    ensures room { (vec_capacity spaces.new ≡ vec_capacity spaces.old) × (vec_capacity authors.new ≡ vec_capacity authors.old) }
{
    let space = spaces.pop()?;
    let Some(author) = authors.pop() else {
        unreachable!()
    };
    Some(Mutex::new(LockedSpace::new(space, author)))
}

/// Puts the space, where it is there, and its author behind the others.
fn put_back<N: Named, P: Place, S: Store + Send + Drop>(
    locked: Option<Mutex<LockedSpace<N, P, S>>>,
    spaces: &mut Vec<Space<S>>,
    authors: &mut Vec<Author>,
)
    requires there { P.number < length N.journal.setting.told → is_some locked ≡ true }
    requires parts { AreParts N.journal P.number spaces.old.items authors.old.items }
    requires room { (length N.journal.setting.told ≤ vec_capacity spaces.old) × (length N.journal.setting.told ≤ vec_capacity authors.old) }
    ensures parts { AreParts N.journal (P.number + 1) spaces.new.items authors.new.items }
    ensures room { (length N.journal.setting.told ≤ vec_capacity spaces.new) × (length N.journal.setting.told ≤ vec_capacity authors.new) }
    ensures same_room { (vec_capacity spaces.new ≡ vec_capacity spaces.old) × (vec_capacity authors.new ≡ vec_capacity authors.old) }
{
    if let Some(locked) = locked {
        let (space, author) = locked.into_inner().into_parts();
        spaces.push_reserved(space);
        authors.push_reserved(author);
    }
}
