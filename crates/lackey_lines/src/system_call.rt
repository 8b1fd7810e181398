//! Lines of system calls.

use crate::number::hex_number;
use arrayvec::ArrayVec;
use pager_model::Rights;
use trace_lines::{any_number, cut};

/// A system call that was done, and changed what is mapped. Addresses and lengths are in bytes.
#[derive(Clone, Copy, Debug, PartialEq, Eq)]
pub enum SystemCall {
    Map {
        first: u64,
        length: u64,
        rights: Rights,
    },
    Unmap {
        first: u64,
        length: u64,
    },
    Protect {
        first: u64,
        length: u64,
        rights: Rights,
    },
    /// The heap ends here now.
    Break {
        top: u64,
    },
    /// What these bytes hold is given up.
    Discard {
        first: u64,
        length: u64,
    },
    /// What was mapped at one place is mapped at another, or with another length.
    Move {
        first: u64,
        length: u64,
        new_first: u64,
        new_length: u64,
    },
}

/// The most numbers that a system call has.
const MOST_NUMBERS: usize = 6;

/// The advice of `madvise` by which a program gives up what pages hold.
const DONT_NEED: u64 = 4;

/// The bits of rights: to write, and to read or to execute.
const WRITES: u64 = 2;

const READS: u64 = 5;

/// What a word has at the front by which a call tells that it was done, and the number behind it.
const SUCCESS: &[u8] = b"Success(0x";

/// How many words there are at most between the numbers and this one.
const MOST_WORDS: usize = 4;

/// The call that a line tells, where it changes what is mapped.
pub fn system_call_of(line: &[u8]) -> Option<SystemCall> {
    let (thread, rest) = cut(line, b' ')?;
    if !thread.starts_with(b"SYSCALL[") {
        return None;
    }
    let (name, rest) = cut(rest, b' ')?;
    let (_, rest) = cut(rest, b' ')?;
    let (numbers, rest) = numbers_of(rest)?;
    call_of(name, numbers.as_slice(), rest)
}

/// The call of a name and its numbers, and of what stands behind them.
fn call_of(name: &[u8], numbers: &[u64], rest: &[u8]) -> Option<SystemCall> {
    match (name, numbers) {
        (b"sys_madvise", [first, length, DONT_NEED, ..]) => Some(SystemCall::Discard {
            first: *first,
            length: *length,
        }),
        (b"sys_brk", [..]) => Some(SystemCall::Break {
            top: success_of(rest)?,
        }),
        (b"sys_mmap", [_, length, bits, ..]) => Some(SystemCall::Map {
            first: success_of(rest)?,
            length: *length,
            rights: rights_of(*bits),
        }),
        (b"sys_munmap", [first, length, ..]) => success_of(rest).map(|_| SystemCall::Unmap {
            first: *first,
            length: *length,
        }),
        (b"sys_mprotect", [first, length, bits, ..]) => {
            success_of(rest).map(|_| SystemCall::Protect {
                first: *first,
                length: *length,
                rights: rights_of(*bits),
            })
        }
        (b"sys_mremap", [first, length, new_length, ..]) => Some(SystemCall::Move {
            first: *first,
            length: *length,
            new_first: success_of(rest)?,
            new_length: *new_length,
        }),
        _ => None,
    }
}

/// The rights that the bits of a call give. What may be executed may be read.
fn rights_of(bits: u64) -> Rights {
    if bits & WRITES != 0 {
        Rights::Write
    } else if bits & READS != 0 {
        Rights::Read
    } else {
        Rights::NoAccess
    }
}

/// The numbers of a call, up to the bracket that ends them, and what stands from there on.
fn numbers_of(text: &[u8]) -> Option<(ArrayVec<u64, MOST_NUMBERS>, &[u8])> {
    let mut numbers = ArrayVec::new();
    let mut rest = text;
    while !numbers.is_full() {
        let (word, after) = cut(rest, b' ')?;
        if word.starts_with(b")") {
            break;
        }
        numbers.push(number_of(word)?);
        rest = after;
    }
    Some((numbers, rest))
}

/// The number that a word is, with a comma behind it or not.
fn number_of(word: &[u8]) -> Option<u64> {
    let number = match word {
        [number @ .., b','] => number,
        _ => word,
    };
    match number {
        [b'0', b'x', digits @ ..] => hex_number(digits),
        _ => any_number(number).ok(),
    }
}

/// The number that the call answered, where it was done.
fn success_of(text: &[u8]) -> Option<u64> {
    let mut rest = text;
    for _ in 0..MOST_WORDS {
        if let Some(behind) = rest.strip_prefix(SUCCESS) {
            let (digits, _) = cut(behind, b')')?;
            return hex_number(digits);
        }
        let (_, after) = cut(rest, b' ')?;
        rest = after;
    }
    None
}
