use crate::extent::Extent;
use crate::region::Rights;

/// A translation: an extent of pages over the extent of frames from `frame` on, of one rights and one dirty flag.
#[derive(Clone, Copy, Debug, PartialEq, Eq)]
pub struct Tile {
    pub extent: Extent,
    pub frame: u32,
    pub rights: Rights,
    pub dirty: bool,
}

/// What is said of a resident page: its frame, the first page of its region, its rights and its dirty flag.
#[derive(Clone, Copy, Debug, PartialEq, Eq)]
pub struct Mapping {
    pub frame: u32,
    /// The first page of the page's region.
    pub region: u32,
    pub rights: Rights,
    pub dirty: bool,
}
