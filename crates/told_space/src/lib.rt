//! A space whose store tells its copies, as the entries of a history lead to it, and which entries it allows.
//!
//! What is kept of it is what entries are judged by: its regions, rights and resident pages with their tiles, the words that stores wrote, the
//! images, and who writes the next entry. No copy is kept: no entry is judged by one.
#![tactic(auto)]

mod allowed;
mod answers;
mod calls;
mod followed;
mod looks;
mod next;
mod space;
mod translations;
mod words;

pub use space::ToldSpace;
