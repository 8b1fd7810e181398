//! The translation images of processors on one space: the tiles that each used last, the last used first.
#![tactic(auto)]

mod image;
mod images;

pub use images::Images;
