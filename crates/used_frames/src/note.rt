//! What is noted of a frame, as it is kept.

ghost use Rattle.std.specs.Prelude.{◌≡◌, true};

use pager_model::Used;
use std::marker::Model;
use std::mem::size_of;

/// What is noted of a frame, where it is used: in half of the bytes that an `Option<Used>` takes.
///
/// Contracts see the option.
#[derive(Clone, Copy)]
pub(crate) struct Note {
    age: u64,
    /// The processor that claims the frame, and 0 where none does.
    claimer: u32,
    /// Whether the frame is used. Where it isn't, all else is zero.
    is_used: bool,
    is_wired: bool,
    is_claimed: bool,
}

// A note is there for each frame.
const _: () = prove!(size_of::<Note>() == 16);

impl Model for Note {
    ghost use Rattle.std.specs.Prelude.{Option, false, is_some, unwrap_or};
    ghost use Rattle.std.specs.Option.{option_map};
    ghost use Rattle.pager_model.specs.declared.reservation.Used.{Used};
    ghost use Rattle.pager_model.specs.FrameStates.{claim_in};
    ghost use Rattle.used_frames.specs.Notes.{note_in, claim_of, IsPlain};

    ghost Value = { Option Used };

    ghost view = { λ n. note_in n.is_used n.age n.is_wired (claim_of n.is_claimed n.claimer) };

    ghost invariant = { λ n. IsPlain n.is_used n.age n.is_wired n.is_claimed n.claimer };

    ghost inverse = { λ note. record {
      age = unwrap_or (option_map (λ (u : Used). u.age) note) 0;
      claimer = unwrap_or (claim_in note) 0;
      is_used = is_some note;
      is_wired = unwrap_or (option_map (λ (u : Used). u.wired) note) false;
      is_claimed = is_some (claim_in note);
    } };
}

impl Note {
    /// The frame is not used.
    pub(crate) const NONE: Note = Note {
        age: 0,
        claimer: 0,
        is_used: false,
        is_wired: false,
        is_claimed: false,
    };

    /// This is noted of a frame.
    pub(crate) fn of(note: Option<Used>) -> Note
        ensures { result ≡ note }
    {
        let Some(used) = note else {
            return Note::NONE;
        };
        Note {
            age: used.age,
            claimer: used.claim.unwrap_or(0),
            is_used: true,
            is_wired: used.wired,
            is_claimed: used.claim.is_some(),
        }
    }

    /// What is noted.
    pub(crate) fn get(&self) -> Option<Used>
        ensures { result ≡ self.now }
    {
        self.is_used.then_some(Used {
            age: self.age,
            wired: self.is_wired,
            claim: self.is_claimed.then_some(self.claimer),
        })
    }
}
