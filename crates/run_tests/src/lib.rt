//! Tests of whole runs: by the machine in given turns, in threads, and by the program's words, over stores that may fail.
#![tactic(auto)]

#[cfg(test)]
mod tests;
