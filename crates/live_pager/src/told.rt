//! What a call is told.

use pager_model::Answered;

/// What a call was answered, and what it did.
#[derive(Clone, Copy, Debug, PartialEq, Eq)]
pub struct Told {
    pub answered: Answered,
    /// The frame of the page, after a load or a store that was served.
    pub frame: Option<u32>,
    /// How many extents became tiles that lay in none, and how many tiles were broken.
    pub promotions: u64,
    pub demotions: u64,
    /// How many takings of a frame broke a reservation.
    pub preemptions: u64,
    /// How many pages were paged out or evicted.
    pub evictions: u64,
}
