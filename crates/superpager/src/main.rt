//! Replays a trace of memory calls and prints each answer and the counts of the run, or what is planned after it, or its miss curves; or says whether a
//! history is a legal one of a trace; or runs a trace as it is read, of any length, and prints the counts; or makes a trace from a number, and prints it
//! or the counts of its run.
#![tactic(auto)]

ghost use Rattle.std.specs.Prelude.{◌≡◌, ◌++◌, ◌∷◌, [], None, OnOk, codes};
ghost use Rattle.std.specs.Io.KnownBytes.{Appends};
ghost use Rattle.pager_command.specs.Messages.{message_text};

mod backing;

use backing::{Backing, file_stores, memory_stores, slot_stores, stores_of};
use io_core::{RealSink, RealSource, Sink, Source};
use pager_command::{DONE, MEMORY, USAGE, is_command, message_of, run, unread_words};
use std::fs::File;
use std::io::Write;
use std::process::ExitCode;
use std::rt::{Env, Files};
use std::sync::Wait;
use std::thread::Threads;
use std::{env, io};
use store_core::Store;
use trace_reader::TraceFault;

fn main(rt: HostRuntime) -> ExitCode {
    let mut source = RealSource::of(rt.stdin());
    let mut sink = RealSink::of(rt.stdout());
    let (status, refusal) = match run_words(&rt, &mut source, &mut sink) {
        Ok(ended) => ended,
        Err(error) => (unread_words(&error), None),
    };
    if status != DONE {
        let mut errors = rt.stderr();
        let _ = tell(&mut errors, status, refusal);
        let _ = tell_more(&mut errors, status, refusal);
    }
    ExitCode::from(status)
}

/// Runs with the words after the program's name, and answers the status and why no trace was run.
fn run_words<R: AllocGlobal + Env + Files<File = File> + Threads + Wait + Sync, T: Source, K: Sink>(
    rt: &R,
    source: &mut T,
    sink: &mut K,
) -> io::Result<(u8, Option<TraceFault>)> {
    let alloc = rt.alloc();
    let arguments: Vec<String> = env::args(rt)?.skip(1).collect(alloc)?;
    let words: Vec<&str> = arguments.iter().map(|word| word.as_str()).collect(alloc)?;
    let (backing, words) = stores_of(words.as_slice());
    if !is_command(words) {
        // No file is made for words that ask for no run.
        return Ok((USAGE, None));
    }
    run_with(rt, backing, words, source, sink)
}

/// Runs with these words over such stores, and answers the status and why no trace was run.
fn run_with<R: AllocGlobal + Files<File = File> + Threads + Wait + Sync, T: Source, K: Sink>(
    rt: &R,
    backing: Backing<'_>,
    words: &[&str],
    source: &mut T,
    sink: &mut K,
) -> io::Result<(u8, Option<TraceFault>)> {
    let alloc = rt.alloc();
    match backing {
        Backing::Memory => {
            let stores = memory_stores(alloc)?;
            Ok(run_over(rt, words, source, sink, stores))
        }
        Backing::Folder(folder) => match file_stores(rt, alloc, folder) {
            Ok(stores) => Ok(run_over(rt, words, source, sink, stores)),
            Err(_) => Ok((MEMORY, None)),
        },
        Backing::Slots(slots) => match slot_stores(alloc, slots) {
            Ok(stores) => Ok(run_over(rt, words, source, sink, stores)),
            Err(_) => Ok((MEMORY, None)),
        },
    }
}

/// Runs with these words over these stores, and answers the status and why no trace was run.
fn run_over<R: AllocGlobal + Threads + Wait + Sync, T: Source, K: Sink, S: Store + Send + Drop>(
    rt: &R,
    words: &[&str],
    source: &mut T,
    sink: &mut K,
    stores: Vec<S>,
) -> (u8, Option<TraceFault>) {
    let outcome = run(rt, rt.alloc(), words, source, sink, stores);
    (outcome.status, outcome.refusal)
}

/// Says why the program ends with this status: the fault, where a trace was refused, and else the message of the status.
fn tell<W: Write>(out: &mut W, status: u8, refusal: Option<TraceFault>) -> io::Result<()>
    // Where the writer tells its bytes.
    ensures message { OnOk result (refusal ≡ None
        → Appends (W.contents out.old) (W.contents out.new) (codes "superpager: " ++ message_text status ++ 10 ∷ [])) }
{
    match refusal {
        Some(fault) => writeln!(out, "superpager: {fault}"),
        None => writeln!(out, "superpager: {}", message_of(status)),
    }
}

/// Says, in a line behind that, what the arguments may be where they ask for nothing, and what says more of a line that was refused.
fn tell_more<W: Write>(out: &mut W, status: u8, refusal: Option<TraceFault>) -> io::Result<()> {
    if status == USAGE {
        return writeln!(
            out,
            "usage: superpager [--folder DIR | --swap N] order|turns SEED|replay [--history], or plan K, or curve, <TRACE; check <TRACE-AND-HISTORY; stream [EVERY|curve] <TRACE; make NUMBER CALLS PROCESSORS SPACES FRAMES; large NUMBER SEED"
        );
    }
    match refusal {
        Some(TraceFault::Line { .. }) => writeln!(out, "see: tools/explain TRACE"),
        _ => Ok(()),
    }
}
