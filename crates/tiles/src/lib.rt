//! The resident pages of a space and the tiles that they make: the largest extents of pages that one translation maps.
//!
//! Each resident page is mapped by its tile, as one entry of a page map that is changed in place: an entry breaks down to the part of it that
//! changes, or joins with those beside it. So a page's tile is found by four looks at most, and a change of one page, with finding it, promises its
//! looks (`cost`): at most 58 where it is filled, 50 where it goes and 62 where its dirty flag or its rights change. A change of the rights of a
//! range looks once at an extent of 512 pages of which none is resident, and otherwise at most 8,192 times and 58 times for each of its resident
//! pages. Which tiles went and came with a change of one page follows from the page's own tile before it and after. The map is of the resident
//! pages alone: what a space keeps grows with the frames, and not with the pages of a space.
//!
//! A run may have only some of the page sizes. The map is by all four, whichever they are: the tile by some sizes is the part of a page's tile, of
//! the largest of them that fits, so what is asked by a set of sizes is cut from what is kept.
#![tactic(auto)]

mod base;
mod changes;
pub mod counted;
mod counts;
mod entries;
mod entry;
pub mod laws;
mod levels;
mod mixed;
mod moves;
mod pages;
mod parts;
mod tile_list;

pub use base::{Base, Translation};
pub use changes::Changes;
pub use moves::Moves;
pub use tile_list::TileList;
