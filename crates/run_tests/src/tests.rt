//! Runs by the crate that makes them, and a store over files.
mod command;
mod daemon;
mod folders;
mod machine;
mod replay;
mod shared;
