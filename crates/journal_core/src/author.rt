ghost use Rattle.std.specs.Prelude.{◌≡◌, ◌≤◌, [], length};
ghost use Rattle.journal_core.specs.Seats.{author_view, author_of, IsAuthor};

use crate::view::Seat;
use std::marker::Model;

/// The right to write the entries of one part: of a space, by its number, or of the frames, whose number is the count of
/// the spaces. It keeps no entries; contracts see them.
#[derive(Drop)]
pub struct Author {
    seat: Seat,
}

impl Model for Author {
    ghost use Rattle.journal_core.specs.Journals.{AuthorState};

    ghost Value = { AuthorState };

    ghost use Rattle.journal_core.specs.Seats.{author_of, IsAuthor};

    ghost view = { λ a. author_of a.seat.table_id a.seat.me.0 };

    ghost invariant = { λ a. IsAuthor a.seat.table_id a.seat.me };
}

impl Author {
    pub(crate) fn of(seat: Seat) -> Author
        requires { IsAuthor seat.table_id seat.me }
        ensures { result ≡ author_of seat.table_id seat.me.0 }
    {
        Author { seat }
    }

    pub(crate) fn into_seat(self) -> Seat
        ensures seat { (result.table_id ≡ self.journal.table) × (result.me ≡ (author_view self, [])) }
        ensures part { self.part ≤ length self.journal.setting.told }
    {
        let Author { seat } = self;
        seat
    }
}
