//! Turns what Lackey, an example tool of Valgrind, writes of a program into a trace, as it is read and in constant memory:
//!
//! ```text
//! valgrind --tool=lackey --trace-mem=yes --trace-syscalls=yes PROGRAM 2>&1 >/dev/null | from_lackey >TRACE
//! ```
//!
//! The words behind its name may be `--frames F`, a multiple of 512 from 512 to 32,768, else 8,192; `--sizes SIZES`, the page sizes, else `0123`; and
//! `--no-instructions`, which leaves the loads of instructions out. It writes the text of a trace of version 3 of one processor and one space. In the end it
//! tells on standard error how many lines it read, and what became of them.
//!
//! `lackey_lines` says what a line tells, `lackey_layout` where a page of the program is in the space, and `lackey_regions` which calls a line becomes. A line
//! that tells nothing, or has 4,096 bytes or more, becomes none, and is counted as skipped.
//!
//! The status is 0 where the whole trace was written, 2 where the words are none of these, 3 where a line can't become calls or there are more bytes than can be
//! counted, 4 where a read failed, 5 where
//! there was no memory, and 6 where a write failed. A message stands on standard error where it isn't 0, and what was written is then the beginning of a text.
#![tactic(auto)]

mod convert;
mod counts;
mod lines;
mod log;
mod options;
mod stop;

use convert::convert;
use counts::Counts;
use io_core::{RealSink, RealSource};
use options::{Options, options_of};
use std::env;
use std::io::{self, ErrorKind, Write};
use std::process::ExitCode;
use std::rt::Env;
use stop::{Stop, status_of};

fn main(rt: HostRuntime) -> ExitCode {
    let mut errors = rt.stderr();
    let ended = match asked(&rt) {
        Ok(options) => convert(
            rt.alloc(),
            options,
            &mut RealSource::of(rt.stdin()),
            &mut RealSink::of(rt.stdout()),
        ),
        Err(stop) => Err(stop),
    };
    match ended {
        Ok(counts) => {
            let _ = tell(&mut errors, &counts);
            ExitCode::from(0)
        }
        Err(stop) => {
            let _ = tell_stop(&mut errors, &stop);
            ExitCode::from(status_of(&stop))
        }
    }
}

/// What the words behind the program's name ask for.
fn asked<R: AllocGlobal + Env>(rt: &R) -> Result<Options, Stop> {
    match words_of(rt) {
        Ok(words) => words,
        Err(error) if error.kind() == ErrorKind::InvalidData => Err(Stop::Usage),
        Err(_) => Err(Stop::NoMemory),
    }
}

/// The options that the words behind the program's name are, if those are text.
fn words_of<R: AllocGlobal + Env>(rt: &R) -> io::Result<Result<Options, Stop>> {
    let alloc = rt.alloc();
    let arguments: Vec<String> = env::args(rt)?.skip(1).collect(alloc)?;
    let words: Vec<&str> = arguments.iter().map(|word| word.as_str()).collect(alloc)?;
    Ok(options_of(words.as_slice()).ok_or(Stop::Usage))
}

/// Tells what was read and written.
fn tell<W: Write>(out: &mut W, counts: &Counts) -> io::Result<()> {
    writeln!(
        out,
        "from_lackey: {} lines, {} accesses, {} skipped, {} maps, {} grows, {} unmaps, {} protects, {} discards",
        counts.lines,
        counts.accesses,
        counts.skipped,
        counts.maps,
        counts.grows,
        counts.unmaps,
        counts.protects,
        counts.discards
    )
}

/// Says why there is no whole trace.
fn tell_stop<W: Write>(out: &mut W, stop: &Stop) -> io::Result<()> {
    match stop {
        Stop::Usage => writeln!(
            out,
            "from_lackey: usage\nusage: from_lackey [--frames F] [--sizes SIZES] [--no-instructions] <LOG"
        ),
        _ => writeln!(out, "from_lackey: {stop}"),
    }
}
