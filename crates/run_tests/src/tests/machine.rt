//! Runs in listed turns, over stores that may fail. What each prints, entry by entry, and its counts are what an independent checker made.
//!
//! A run is a text of five lines. Behind its name stand its `turns`: how many of processor 0 come first, and whose come behind them, a digit a
//! turn; after them it is always that of the lowest processor that can step. Then its `stores`: at which reads and writes that of each space
//! fails, that over one slot where they begin with `slot`, or none finds memory where they are `full`. Then its `trace`, and the `report`: what is
//! printed from the entry behind the first turns on, as `tools/judge schedule --history` prints it.
//!
//! So `turns: 1025 1100` is read: 1,025 turns of processor 0, and then two of processor 1 and two of processor 0. `stores: reads 516 writes; reads
//! writes 4`: of space 0 the 516th read fails, and of space 1 the fourth write. And in a report `1026 1 s1+f claim 0 7 9 for 3 read`: entry 1026 is
//! of processor 1, and names space 1 and the frames; for a load of page 3 of space 1 it claims the frame of page 7 of space 0, which is frame 9.
ghost use Rattle.std.specs.Prelude.{◌<◌};
ghost use Rattle.std.specs.List.{All};
ghost use Rattle.pager_model.specs.Showing.{actors};

mod beside_daemons;
mod drawn;
mod failing;
mod full;
mod named;

use beside_daemons::BESIDE;
use drawn::DRAWN;
use failing::FAILING;
use full::Full;
use io_core::{MemorySink, MemorySource};
use named::{BESIDE_DAEMONS, NAMED, ORDERS};
use pager_model::Trace;
use replay_core::replay_schedule;
use report_text::{Parts, write_report};
use std::alloc::AllocError;
use std::fmt::Write;
use std::process::Abort;
use std::str::Lines;
use store_core::{MemoryStore, Store};
use swap_slots::{MemoryBlocks, SlotStore};
use trace_reader::read_trace;

/// What is said where there is no memory for a test.
pub(super) const NO_MEMORY: &str = "no memory";

/// More bytes than any of these runs prints.
const MOST_BYTES: usize = 131_072;

/// What stands before a word of a text and behind it: all and nothing where it doesn't come.
pub(super) fn halves<'a>(text: &'a str, word: &str) -> (&'a str, &'a str) {
    match text.split_once(word) {
        Some(halves) => halves,
        None => (text, ""),
    }
}

/// What stands in the next line behind its name.
fn field<'a>(lines: &mut Lines<'a>) -> &'a str {
    halves(lines.next().unwrap_or(""), ": ").1
}

/// The number of a word.
pub(super) fn number(word: &str) -> u32 {
    word.parse::<u32>().unwrap_or(0)
}

/// The numbers among these words.
pub(super) fn numbers<R: Abort + AllocGlobal>(rt: &R, words: &str) -> Vec<u64> {
    let mut numbers = Vec::new(rt.alloc());
    for word in words.split_whitespace() {
        if let Ok(number) = word.parse::<u64>() {
            numbers.push(number).expect(rt, NO_MEMORY);
        }
    }
    numbers
}

/// Adds as many lines as `511 times 8192` says, with 8192, 16384 and so on in place of `#`.
fn put_series(text: &mut String, series: &str, line: &str) -> Result<(), AllocError> {
    let (count, step) = halves(series, " times ");
    let (head, tail) = halves(line, "#");
    for at in 1..=number(count) {
        writeln!(text, "{head}{}{tail}", at.wrapping_mul(number(step)))?;
    }
    Ok(())
}

/// Adds a line, or a series of lines as `511 times 8192: 0 load 0 #`.
fn put_line(text: &mut String, line: &str) -> Result<(), AllocError> {
    match line.split_once(": ") {
        Some((series, line)) => put_series(text, series, line),
        None => writeln!(text, "{line}"),
    }
}

/// The text of lines that stand one behind another.
pub(super) fn text_of<R: Abort + AllocGlobal>(rt: &R, lines: &str) -> String {
    let mut text = String::new(rt.alloc());
    for line in lines.split("; ") {
        put_line(&mut text, line).expect(rt, NO_MEMORY);
    }
    text
}

/// The trace of these lines.
fn trace_of<R: Abort + AllocGlobal>(rt: &R, lines: &str) -> Trace {
    let bytes = text_of(rt, lines).into_bytes();
    let mut source = MemorySource::of(bytes, 4096, Vec::new(rt.alloc()));
    read_trace(rt.alloc(), &mut source)
        .ok()
        .expect(rt, "a trace")
}

/// The turns of a run: so many of processor 0, and behind them those that the digits name.
fn turns_of<R: Abort + AllocGlobal>(rt: &R, turns: &str, actors: u32) -> Vec<u32>
    requires some { 0 < actors }
    ensures known { All (λ c. c < actors) result.items }
{
    let (before, digits) = halves(turns, " ");
    let mut turns = vec![in rt.alloc(); 0; number(before) as usize].expect(rt, NO_MEMORY);
    for digit in digits.bytes() {
        // The digit 0 is byte 48, a multiple of 16.
        turns
            .push(u32::from(digit) % 16 % actors)
            .expect(rt, NO_MEMORY);
    }
    turns
}

/// The reads and the writes of words as `reads 1 4 writes 2`.
fn faults_of<R: Abort + AllocGlobal>(rt: &R, faults: &str) -> (Vec<u64>, Vec<u64>) {
    let (reads, writes) = halves(faults, "writes");
    (numbers(rt, reads), numbers(rt, writes))
}

/// A store in memory for each space, which fails at these reads and writes.
pub(super) fn stores_of<R: Abort + AllocGlobal>(rt: &R, faults: &str) -> Vec<MemoryStore> {
    let mut stores = Vec::new(rt.alloc());
    for faults in faults.split("; ") {
        let (reads, writes) = faults_of(rt, faults);
        let store = MemoryStore::of(rt.alloc(), reads, writes);
        stores.push(store).expect(rt, NO_MEMORY);
    }
    stores
}

/// A store over one slot of a device, which fails at these reads and writes.
fn slot_of<R: Abort + AllocGlobal>(rt: &R, faults: &str) -> Vec<SlotStore<MemoryBlocks>> {
    let (reads, writes) = faults_of(rt, faults);
    let blocks = MemoryBlocks::create(rt.alloc(), 1, reads, writes).expect(rt, NO_MEMORY);
    let store = SlotStore::create(rt.alloc(), blocks)
        .ok()
        .expect(rt, NO_MEMORY);
    let mut stores = Vec::new(rt.alloc());
    stores.push(store).expect(rt, NO_MEMORY);
    stores
}

/// A store for each space, none of which finds memory for a copy.
fn full_stores<R: Abort + AllocGlobal>(rt: &R, spaces: u32) -> Vec<Full> {
    let mut stores = Vec::new(rt.alloc());
    for _ in 0..spaces {
        stores.push(Full::new()).expect(rt, NO_MEMORY);
    }
    stores
}

/// What a run prints, without the answers, which its history has too.
fn printed<R: Abort + AllocGlobal, S: Store + Send + Drop>(
    rt: &R,
    trace: &Trace,
    stores: Vec<S>,
    turns: &[u32],
) -> MemorySink
    requires known { All (λ c. c < actors trace.now) turns.now }
{
    assert!(rt; trace.spaces() as usize <= stores.len());
    let room = Vec::with_capacity(rt.alloc(), MOST_BYTES).expect(rt, NO_MEMORY);
    let mut sink = MemorySink::of(room, MOST_BYTES, Vec::new(rt.alloc()));
    let Ok(gathered) = replay_schedule(rt.alloc(), trace, stores, turns) else {
        panic!(rt; "no memory");
    };
    let (history, summary) = (&gathered.history, &gathered.summary);
    let wrote = write_report(&mut sink, 0, history, summary, Parts::AnswersAndHistory);
    assert!(rt; wrote.is_ok());
    sink
}

/// What a run over these stores prints.
fn printed_over<R: Abort + AllocGlobal>(
    rt: &R,
    turns: &str,
    stores: &str,
    trace: &str,
) -> MemorySink {
    let trace = trace_of(rt, trace);
    let turns = turns_of(rt, turns, trace.actors());
    if stores == "full" {
        printed(rt, &trace, full_stores(rt, trace.spaces()), &turns)
    } else if let Some(faults) = stores.strip_prefix("slot ") {
        printed(rt, &trace, slot_of(rt, faults), &turns)
    } else {
        printed(rt, &trace, stores_of(rt, stores), &turns)
    }
}

/// Asserts that each run of a table prints what stands there, from the entry behind the first turns of processor 0 on.
fn assert_printed<R: Abort + AllocGlobal>(rt: &R, runs: &str) {
    for run in runs.split("\n\n") {
        let mut fields = run.lines();
        let name = field(&mut fields);
        let (turns, stores) = (field(&mut fields), field(&mut fields));
        let printed = printed_over(rt, turns, stores, field(&mut fields));
        let report = text_of(rt, field(&mut fields));
        assert!(rt; printed.bytes().ends_with(report.as_bytes()), "{name}");
    }
}

#[test]
fn runs_show_what_their_names_say(rt: HostRuntime) {
    assert_printed(&rt, NAMED);
    assert_printed(&rt, BESIDE_DAEMONS);
    assert_printed(&rt, ORDERS);
    assert_printed(&rt, FAILING);
}

#[test]
fn drawn_runs_print_what_is_recorded(rt: HostRuntime) {
    assert_printed(&rt, DRAWN);
    assert_printed(&rt, BESIDE);
}
