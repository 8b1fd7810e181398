//! Texts that are read and written again, reads that fail, and what is said of a fault. What text is a trace's, and how each other one is
//! refused, is tried by `examples/refused/grammar`.

use super::NO_MEMORY;
use super::streams::sink_of;
use io_core::MemorySource;
use std::process::Abort;
use trace_make::write_trace;
use trace_reader::{TraceFault, read_trace};

/// A text of all page sizes with a line of each form that each version has.
const WHOLE: &[u8] =
    b"trace 1 32768 2 3\ndaemon 64 4096\n0 map 0 0 16 fixed none\n1 map 2 1048575 1048576 growing read\n0 map 1 8 8 wired write\n1 grow 2 0 1\n0 unmap 0 16\n0 protect 0 8 9 write\n1 load 2 8589934584\n0 store 0 0 18446744073709551615\n0 sync 1 15\n0 evict 0 15\nend\n";

/// A text that names its page sizes.
const SIZED: &[u8] = b"trace 2 512 16 16 013\nend\n";

/// A text with the lines of the third version alone.
const WIRED: &[u8] =
    b"trace 3 512 2 16 0123\n0 discard 15 8 1048576\n1 wire 0 1048575\n0 unwire 2 0\nend\n";

/// What is said of the faults that the program doesn't meet, since it has stores enough and memory for a small text, and of a long line.
static MESSAGES: [(TraceFault, &str); 3] = [
    (TraceFault::LongLine { number: 7 }, "line 7: long"),
    (
        TraceFault::TooFewStores {
            stores: 1,
            spaces: 2,
        },
        "1 stores for 2 spaces",
    ),
    (TraceFault::NoMemory, "memory"),
];

/// A source of a text that gives at most seven bytes a read, and fails at one read; none is read 0.
fn source_of<R: Abort + AllocGlobal>(rt: &R, text: &[u8], failing: u64) -> MemorySource {
    let bytes = text.to_vec(rt.alloc()).expect(rt, NO_MEMORY);
    let failing = [failing].to_vec(rt.alloc()).expect(rt, NO_MEMORY);
    MemorySource::of(bytes, 7, failing)
}

/// The trace of a text is written as that text.
fn is_written_again<R: Abort + AllocGlobal>(rt: &R, text: &[u8]) -> bool {
    let mut source = source_of(rt, text, 0);
    let trace = read_trace(rt.alloc(), &mut source)
        .ok()
        .expect(rt, "refused");
    let mut sink = sink_of(rt, rt.alloc(), 300, 0);
    write_trace(&mut sink, &trace).is_ok() && sink.bytes() == text
}

#[test]
fn what_is_read_is_written_again(rt: HostRuntime) {
    assert!(rt; is_written_again(&rt, WHOLE) && is_written_again(&rt, SIZED));
    assert!(rt; is_written_again(&rt, WIRED));
}

/// What is told where one read of a text with a bad line fails.
fn fault_where_fails<R: Abort + AllocGlobal>(rt: &R, failing: u64) -> Option<TraceFault> {
    let text = b"trace 1 512 1 1\nbad\n0 load 0 8\nend\n";
    let mut source = source_of(rt, text, failing);
    read_trace(rt.alloc(), &mut source).err()
}

#[test]
fn passes_a_failed_read_on(rt: HostRuntime) {
    for failing in 1..=6 {
        assert!(rt; fault_where_fails(&rt, failing) == Some(TraceFault::ReadFault));
    }
}

#[test]
fn says_what_is_wrong(rt: HostRuntime) {
    for (fault, message) in &MESSAGES {
        let said = format!(in rt.alloc(); "{fault}").expect(&rt, NO_MEMORY);
        assert!(rt; said.as_str() == *message);
    }
}
