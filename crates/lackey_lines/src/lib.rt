//! The lines that Lackey, an example tool of Valgrind, writes of a program: `valgrind --tool=lackey --trace-mem=yes --trace-syscalls=yes PROGRAM`.
//!
//! A line of an access is its kind, its address in hexadecimal, a comma, and its size in bytes:
//!
//! | line | access |
//! |---|---|
//! | `I  0401ab70,3` | an instruction, which is loaded |
//! | ` L 04032e40,8` | a load |
//! | ` S 1fff000778,8` | a store |
//! | ` M 04033e06,1` | a change: a load and a store |
//!
//! The address is below 2^64, and the size from 1 to 512. A line of a system call is looked at where it tells, in the one line, the call, its numbers and
//! that it succeeded, and the call changes what is mapped. A call of `madvise` is told when it begins, and what comes of it in another line: so it counts when
//! it begins. Every other line tells nothing.
#![tactic(auto)]

mod access;
mod number;
mod system_call;

pub use access::{Access, AccessKind, access_of};
pub use system_call::{SystemCall, system_call_of};
