//! A log that keeps no entry.

ghost use Rattle.std.specs.Prelude.{◌≡◌, []};
ghost use Rattle.flight_core.specs.Counting.{IsCounted, is_eviction, is_unserved};

use crate::log::Log;
use pager_model::{Call, Entry, Reply, What};

/// At most so many entries has a history.
const MOST_IN_HISTORY: u64 = 36_507_222_016;

/// The counts of a history that nobody keeps.
#[derive(Clone, Copy, Debug, PartialEq, Eq)]
pub struct Counted {
    /// How many accesses hit in their processor's image of a TLB.
    pub hits: u64,
    /// How many missed there.
    pub misses: u64,
    /// How many pages gave their frame up: by the call `evict`, or paged out for another page or by a daemon.
    pub evictions: u64,
    /// How many calls were answered that they weren't done, for want of a frame, of memory or of a working store, or for a page whose frame was claimed.
    pub unserved: u64,
    /// How many entries more there may be.
    pub left: u64,
}

impl Counted {
    /// Of no entry.
    pub fn new() -> Counted
        ensures { IsCounted result [] }
    {
        Counted {
            hits: 0,
            misses: 0,
            evictions: 0,
            unserved: 0,
            left: MOST_IN_HISTORY,
        }
    }
}

impl Log for Counted {
    ghost use Rattle.flight_core.specs.Counting.{IsCounted};

    ghost stands = { λ c g h. IsCounted c h };

    ghost takes = { λ c e. Unit {0} };

    ghost grown = { λ from c. Unit {0} };

    ghost room = { λ c. c.left };

    fn add(&mut self, entry: &Entry) {
        self.left -= 1;
        if is_eviction(entry) {
            self.evictions += 1;
        }
        let What::Answer { answered, .. } = &entry.what else {
            return;
        };
        if is_unserved(&answered.reply) {
            self.unserved += 1;
        }
        if answered.size.is_none() {
            return;
        }
        if answered.hit {
            self.hits += 1;
        } else {
            self.misses += 1;
        }
    }
}

/// Whether a page gave its frame up by the entry: it was paged out, or evicted by a call.
fn is_eviction(entry: &Entry) -> bool
    ensures { result ≡ is_eviction entry.now }
{
    match entry.what {
        What::Out { .. } => true,
        What::Answer {
            call: Call::Evict { .. },
            ..
        } => entry.frames,
        _ => false,
    }
}

/// Whether a call that was answered so wasn't done.
fn is_unserved(reply: &Reply) -> bool
    ensures { result ≡ is_unserved reply.now }
{
    matches!(
        reply,
        Reply::NoFrames { .. } | Reply::StoreFault { .. } | Reply::NoMemory | Reply::Busy { .. }
    )
}
