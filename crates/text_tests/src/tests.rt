//! Each crate's tests in a module.

mod chunks;
mod history;
mod reader;
mod stores;
mod streams;
mod texts;

/// What is said where there is no memory for a test.
const NO_MEMORY: &str = "no memory";
