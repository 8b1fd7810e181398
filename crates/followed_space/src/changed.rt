//! What an entry changed of the resident pages.

use pager_model::PageRange;
use tiles::Changes;

/// What an entry changed of what is said of the resident pages.
#[derive(Debug, Drop)]
pub enum Changed {
    Nothing,
    /// One page, with the tiles by all four sizes that went and came.
    Page { page: u32, changes: Changes },
    /// Pages of the range. A tile by any sizes that begins outside of it is one still.
    Range(PageRange),
}
