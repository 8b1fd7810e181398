//! Tests of the crates that read and write texts, keep copies and keep a history, by their public calls.
#![tactic(auto)]

#[cfg(test)]
mod tests;
