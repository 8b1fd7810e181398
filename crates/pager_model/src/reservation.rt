use crate::size::Size;

/// An extent of pages of a space with an extent of frames of the same size: its place `i` joins page `first + i`
/// and frame `frame + i`.
#[derive(Clone, Copy, Debug, PartialEq, Eq)]
pub struct Reservation {
    pub space: u32,
    /// The first page.
    pub first: u32,
    pub size: Size,
    /// The first frame.
    pub frame: u32,
    /// The number of entries on the frames before the one of its latest page allocation.
    pub stamp: u64,
}

/// What is noted of a used place of a reservation.
#[derive(Clone, Copy, Debug, PartialEq, Eq)]
pub struct Used {
    /// The number of entries on the frames before the one that gave the frame to its page.
    pub age: u64,
    /// Whether the page's region is wired, so that the page is never evicted.
    pub wired: bool,
    /// The processor that claims the frame, if one does.
    pub claim: Option<u32>,
}
