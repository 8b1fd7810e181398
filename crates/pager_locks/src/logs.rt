//! The lists in hand, as a log of a flight's steps.

ghost use Rattle.std.specs.Prelude.{◌≡◌, true, is_some, Some};

use flight_core::Log;
use journal_core::{Author, Journal, Pass, commit, commit_two};
use pager_model::Entry;

/// The authors of the parts whose locks are held, and the pass of the flight's processor. It stands for each history of which these have the
/// lists, whoever else goes on with the parts that aren't in hand.
#[derive(Drop)]
pub struct Held<'a> {
    /// Where the entries are committed.
    pub journal: &'a Journal,
    // An author or the pass is away only while an entry is committed with it.
    /// Of the space whose lock is held, if one is.
    pub space: Option<Author>,
    /// Of the frames, if their lock is held.
    pub frames: Option<Author>,
    /// Of the flight's processor.
    pub pass: Option<Pass>,
}

impl Held<'_> {
    /// The authors of the space and of the frames, and the pass, which is there.
    pub fn into_parts(self) -> (Option<Author>, Option<Author>, Pass)
        requires { is_some self.pass ≡ true }
        ensures authors { (result.0 ≡ self.entry.space) × (result.1 ≡ self.entry.frames) }
        ensures pass { self.entry.pass ≡ Some result.2 }
    {
        let Held {
            journal: _,
            space,
            frames,
            pass,
        } = self;
        let Some(pass) = pass else { unreachable!() };
        (space, frames, pass)
    }
}

impl Log for Held<'_> {
    ghost use Rattle.pager_locks.specs.Logs.{AreHeld, MayTake, HasGrown, room_left};

    ghost stands = { λ l g h. AreHeld l.journal.now.name l.space l.frames l.pass g h };

    ghost takes = { λ l e. MayTake l.space l.frames l.pass e };

    ghost grown = { λ from l. HasGrown from.journal.now.name l.journal.now.name from.space l.space from.frames l.frames from.pass l.pass };

    ghost room = { λ l. room_left l.pass };

    fn add(&mut self, entry: &Entry) {
        let Some(pass) = self.pass.take() else {
            unreachable!()
        };
        if entry.space.is_none() {
            let Some(frames) = self.frames.take() else {
                unreachable!()
            };
            let (_, frames, pass) = commit(self.journal, frames, pass, *entry);
            self.frames = Some(frames);
            self.pass = Some(pass);
            return;
        }
        let Some(space) = self.space.take() else {
            unreachable!()
        };
        if entry.frames {
            let Some(frames) = self.frames.take() else {
                unreachable!()
            };
            let (_, space, frames, pass) = commit_two(self.journal, space, frames, pass, *entry);
            self.space = Some(space);
            self.frames = Some(frames);
            self.pass = Some(pass);
            return;
        }
        let (_, space, pass) = commit(self.journal, space, pass, *entry);
        self.space = Some(space);
        self.pass = Some(pass);
    }
}
