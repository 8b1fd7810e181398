use crate::size::Size;

/// How many pages a space has: they are numbered from 0.
pub const PAGES: u32 = 1 << 20;

/// How many pages, and frames, the largest extent has.
pub const LARGEST: u32 = 512;

/// 8^k consecutive numbers of pages or frames that begin at a multiple of 8^k.
#[derive(Clone, Copy, Debug, PartialEq, Eq)]
pub struct Extent {
    pub size: Size,
    pub first: u32,
}
