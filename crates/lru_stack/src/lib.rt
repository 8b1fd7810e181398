//! One row of places for the images of every capacity at once, after Mattson's stack of pages: an image of `n` translations has those of the first
//! `n` places. A tile that is none any more leaves a hole, which takes the next one that moves down.
#![tactic(auto)]

pub mod examples;
mod stack;

pub use stack::{Stack, Use};
