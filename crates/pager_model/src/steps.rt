ghost use Rattle.std.specs.Prelude.{◌≡◌, ◌+◌, ◌<◌};

use std::marker::Model;
use std::sync::ledger::{Book, Ledger, Share};

/// A counter of steps, for bounds on how many a call makes. It takes no bytes at run time, and only goes up, by one at a time.
///
/// Contracts see it as the number of steps. What a step is, is said by the store whose calls count.
#[derive(Drop)]
pub struct Steps<L: Ledger> {
    book: Book<L>,
    share: Share<L>,
}

impl<L: Ledger> Model for Steps<L> {
    ghost use Rattle.std.specs.Prelude.{ℕ, ◌<◌};

    ghost Value = { ℕ };

    ghost view = { λ s. s.book.total };

    ghost invariant = { λ s. 0 < s.share.parts };
}

impl<L: Ledger> Steps<L> {
    /// A counter at 0, from the book and the share that opening a blank ledger gives.
    pub fn begin(book: Book<L>, share: Share<L>) -> Steps<L>
        requires fresh { book.total ≡ 0 }
        requires share { 0 < share.parts }
        ensures { result ≡ 0 }
    {
        Steps { book, share }
    }

    /// Counts a step.
    pub fn step(&mut self)
        ensures { self.new ≡ self.old + 1 }
    {
        self.book.add(&mut self.share, 1);
    }
}
