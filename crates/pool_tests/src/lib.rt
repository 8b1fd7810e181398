//! Tests of the types, of the parts of the pool of frames and of the pool, by their public calls.
#![tactic(auto)]

#[cfg(test)]
mod tests;
