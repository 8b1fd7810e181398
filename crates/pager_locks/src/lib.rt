//! A pager that many threads share. Each thread has the pass of a processor, and makes that processor's calls one after another.
//!
//! # The model
//!
//! All that the threads do is one legal history, to which each step of a call adds an entry or none. What lies behind a lock stands for the
//! entries that name it: a space for its part of the history, and the pool for the frames' part. Of its own call a caller sees what its pass
//! shows: the pass's list has one sequence more, which is the call's, with its reply. Once the pager is closed the whole history is there, and
//! each pass's list is its processor's part of it.
//!
//! # The locks
//!
//! Each space lies behind a lock, with the author of its part. The pool lies behind one, with the author of the frames' part. The journal lies
//! behind none: an entry is committed by one atomic step.
//!
//! - A space's lock is taken before the pool's. No thread ever has the locks of two spaces.
//! - Who takes a space's lock has it until its flight keeps the space no longer. So the next one finds the space at rest.
//! - The pool's lock is taken for a single step, and never held while a store is called.
//! - A step's entry is committed while the locks of the parts that it names are held.
//!
//! A call may wait for a lock, and no contract says that it returns.
//!
//! # The calls
//!
//! `Prepared::create` takes all the memory that a pager takes, but for that of its stores' writes. `Prepared::open` puts each part behind its
//! lock and hands out the passes, `Pager::call` makes a call, and `Pager::close` gives the history, the stores and the counts. `Named` ties the
//! type of a pager to its journal: a program opens its pager in a function over `N: Named`, which it calls at std's `Brand`. `shared::share` is the shortest
//! such program, to begin from.
#![tactic(auto)]

pub mod daemon;
mod locked;
mod locks;
mod logs;
mod naming;
mod numbers;
mod pager;
mod prepared;
pub mod shared;
mod steps;

pub use naming::Named;
pub use pager::Pager;
pub use prepared::{Prepared, Running};
