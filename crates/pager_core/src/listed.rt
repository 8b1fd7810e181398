//! A history in memory, as a log of the steps of flights.

use flight_core::Log;
use pager_model::Entry;
use run_history::History;

/// The entries that were made, all of them.
#[derive(Drop)]
pub(crate) struct Listed {
    pub(crate) history: History,
}

impl Log for Listed {
    ghost use Rattle.std.specs.Prelude.{◌-◌, length};
    ghost use Rattle.pager_core.specs.Listing.{IsListed};

    ghost stands = { λ l g h. IsListed l.history.items l.history.room h };

    ghost takes = { λ l e. Unit {0} };

    ghost grown = { λ from l. Unit {0} };

    ghost room = { λ l. l.history.room - length l.history.items };

    fn add(&mut self, entry: &Entry) {
        self.history.push(entry);
    }
}
