//! One history that many threads write, each in its own list, by single steps on one word.
//!
//! The word is the history's length, and has a cache line of its own. Each seat at it has a view: the authors and the passes that it has, each with its list. Each
//! author and each pass stands in exactly one live view, and its list is that of the history. Six kinds of atomic step keep this so:
//!
//! - *cast off*: the first view, which has every author and every pass, gives one of them, with an empty list, to a new seat's view.
//! - *board a pass*: a pass goes with its list into the view of another seat, and the view that it came from is spent.
//! - *board an author*: an author does the same.
//! - *commit*: the word grows by one, and the lists of the entry's parts and of its processor, all in one view, by the entry.
//! - *alight an author*: the first author of a view goes with its list into a new seat's view.
//! - *alight a pass*: the first pass does the same.
//!
//! Beside these a seat enters with no author and no pass, and a seat looks at the word. Both leave all lists as they are.
#![tactic(auto)]

mod author;
mod gather;
mod journal;
mod pass;
mod steps;
mod view;

pub use author::Author;
pub use journal::{Journal, Opened, close, commit, commit_two, create, meet, meet_two};
pub use pass::Pass;
