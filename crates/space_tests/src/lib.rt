//! Tests of what a space keeps of its pages and of the space, by their public calls.
#![tactic(auto)]

#[cfg(test)]
mod tests;
