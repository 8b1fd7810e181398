//! Runs by the program's words, over sources and sinks that fail and over too few stores. What they print over good ones is in `examples`.
ghost use Rattle.std.specs.Prelude.{◌<◌};

use super::machine::{NO_MEMORY, stores_of, text_of};
use io_core::{MemorySink, MemorySource};
use pager_command::{DONE, Outcome, READ_FAULT, REFUSED, WRITE_FAULT, run};
use std::process::Abort;
use std::sync::Wait;
use std::thread::Threads;
use store_core::Store;
use trace_reader::{LineCause, TraceFault};

/// How many bytes the sink takes, and which read of the source and which write of the sink fail (none is 0).
pub(super) type Streams = (usize, u64, u64);

/// Room for any text here, and nothing fails.
pub(super) const AMPLE: Streams = (65_536, 0, 0);

/// The status of a run, and why its trace was refused.
pub(super) type Told = (u8, Option<TraceFault>);

/// What is told of a run.
fn told<S: Store + Send + Drop>(outcome: Outcome<S>) -> Told {
    (outcome.status, outcome.refusal)
}

/// A list of this number alone.
fn list_of<R: Abort + AllocGlobal>(rt: &R, number: u64) -> Vec<u64> {
    [number].to_vec(rt.alloc()).expect(rt, NO_MEMORY)
}

/// An empty sink of at most so many bytes, which fails at one write; none is write 0.
fn sink_of<R: Abort + AllocGlobal>(rt: &R, limit: usize, failing: u64) -> MemorySink {
    let room = Vec::with_capacity(rt.alloc(), limit).expect(rt, NO_MEMORY);
    MemorySink::of(room, limit, list_of(rt, failing))
}

/// Runs the program with these words over the lines of a text, of which each read gives a byte: what is told of it, and what it printed.
pub(super) fn ran<R: Abort + AllocGlobal + Threads + Wait + Sync, S: Store + Send + Drop>(
    rt: &R,
    words: &[&str],
    lines: &str,
    streams: Streams,
    stores: Vec<S>,
) -> (Told, MemorySink) {
    let (limit, failing_read, failing_write) = streams;
    let bytes = text_of(rt, lines).into_bytes();
    let mut source = MemorySource::of(bytes, 1, list_of(rt, failing_read));
    let mut sink = sink_of(rt, limit, failing_write);
    let outcome = run(rt, rt.alloc(), words, &mut source, &mut sink, stores);
    (told(outcome), sink)
}

/// Whether no run is made over these streams and so many stores, for this reason, and nothing printed.
fn is_stopped<R: Abort + AllocGlobal + Threads + Wait + Sync>(
    rt: &R,
    words: &[&str],
    lines: &str,
    streams: Streams,
    stores: &str,
    wanted: Told,
) -> bool {
    let (told, sink) = ran(rt, words, lines, streams, stores_of(rt, stores));
    told == wanted && sink.bytes().is_empty()
}

/// The trace of `examples/runs/last-page`.
const LAST_PAGE: &str = "trace 1 512 1 1; 0 map 0 1048575 1 fixed write; \
0 store 0 8589934584 18446744073709551615; 0 load 0 8589934584; end";

/// That of `examples/lesson/eight-pages`.
const EIGHT_PAGES: &str =
    "trace 1 512 1 1; 0 map 0 0 8 fixed write; 0 load 0 0; 7 times 8192: 0 load 0 #; end";

/// A trace and a history of it.
const JUDGED: &str = "trace 1 512 1 1; 0 map 0 0 8 fixed write; 0 load 0 0; end; \
0 0 s0 answer 0 done; 1 0 s0+f take 0 0 0 8 8 0; 2 0 s0 answer 1 value 0 miss 0; end";

/// Words, texts, and the first and the last of their reads that fail: of the traces and the history each, of which the last finds the end. The
/// others are no traces, and the read before their fault or behind it is told.
static READS: [(&str, &str, u64, u64); 6] = [
    ("order", LAST_PAGE, 1, 113),
    ("order", EIGHT_PAGES, 1, 160),
    ("order", "x; 0 load", 4, 4),
    ("order", "trace 1 512 1 1; end; end", 24, 24),
    ("check", JUDGED, 1, 138),
    ("stream", EIGHT_PAGES, 1, 160),
];

#[test]
fn each_read_that_fails_ends_the_run_with_nothing_printed(rt: HostRuntime) {
    let wanted = (READ_FAULT, Some(TraceFault::ReadFault));
    for (word, lines, first, last) in &READS {
        for read in *first..=*last {
            let streams = (16_384, read, 0);
            assert!(rt; is_stopped(&rt, &[*word], lines, streams, "writes", wanted));
        }
    }
}

/// A trace of two spaces.
const TWO_SPACES: &str =
    "trace 1 512 1 2; 0 map 0 0 512 fixed write; 0 map 1 0 8 fixed write; 0 load 0 0; 0 load 1 0; end";

/// A trace of two processors on two spaces.
const TWO_PROCESSORS: &str = "trace 1 512 2 2; 0 map 0 0 8 fixed write; 1 load 1 0; end";

#[test]
fn too_few_stores_are_refused_behind_too_many_processors(rt: HostRuntime) {
    let few = |stores, spaces| TraceFault::TooFewStores { stores, spaces };
    let two = TraceFault::OneProcessor { processors: 2 };
    for (words, lines, stores, fault) in [
        (&["order"][..], TWO_SPACES, "writes", few(1, 2)),
        (&["replay"], TWO_PROCESSORS, "writes", few(1, 2)),
        (&["curve"], TWO_SPACES, "writes", few(1, 2)),
        (&["stream", "1"], TWO_SPACES, "writes", few(1, 2)),
        (&["curve"], TWO_PROCESSORS, "writes", two),
        (&["curve"], TWO_PROCESSORS, "writes; writes", two),
        (STREAM_CURVE, TWO_SPACES, "writes", few(1, 2)),
        (STREAM_CURVE, TWO_PROCESSORS, "writes", two),
        (STREAM_CURVE, TWO_PROCESSORS, "writes; writes", two),
        (
            &["large", "7", "3"],
            "",
            "writes; writes; writes",
            few(3, 4),
        ),
    ] {
        assert!(rt; is_stopped(&rt, words, lines, AMPLE, stores, (REFUSED, Some(fault))));
    }
}

/// Calls whose pages no region has. The text is three writes long, and each ends with a line: it is sent once there may not be room for the next.
const NO_REGION: &str = "trace 1 512 1 1; 700 times 8192: 0 load 0 #; end";

/// The words that make a trace of a map and two calls.
const MAKE: &[&str] = &["make", "7", "3", "1", "1", "512"];

/// The words that run a trace as it is read for its curves. Those of `EIGHT_PAGES` are ten writes long.
const STREAM_CURVE: &[&str] = &["stream", "curve"];

/// Words, a trace, how many bytes the sink takes and which write fails, and how many bytes are there then. So `(&["order"], NO_REGION, 16_384, 2, 3850)`
/// is read: by `order` over `NO_REGION` the second write fails of a sink that takes 16,384 bytes, and 3,850 bytes are there.
type Cut = (&'static [&'static str], &'static str, usize, u64, usize);

static CUTS: [Cut; 33] = [
    (&["order"], LAST_PAGE, 0, 0, 0),
    (&["order"], LAST_PAGE, 4, 0, 4),
    (&["order"], LAST_PAGE, 9, 0, 9),
    (&["order"], LAST_PAGE, 144, 0, 144),
    (&["order"], EIGHT_PAGES, 16_384, 1, 0),
    (&["order"], NO_REGION, 16_384, 1, 0),
    (&["order"], NO_REGION, 16_384, 2, 3850),
    (&["order"], NO_REGION, 16_384, 3, 7705),
    (&["plan", "3"], TWO_SPACES, 12, 0, 12),
    (&["curve"], EIGHT_PAGES, 21, 0, 21),
    (&["check"], JUDGED, 3, 0, 3),
    (&["check"], JUDGED, 16_384, 1, 0),
    (&["stream"], EIGHT_PAGES, 0, 0, 0),
    (&["stream"], EIGHT_PAGES, 16_384, 1, 0),
    (&["stream", "4"], EIGHT_PAGES, 16_384, 1, 0),
    (&["stream", "4"], EIGHT_PAGES, 12, 0, 12),
    (&["stream", "4"], EIGHT_PAGES, 16_384, 2, 30),
    (&["stream", "4"], EIGHT_PAGES, 16_384, 3, 60),
    (STREAM_CURVE, EIGHT_PAGES, 4, 0, 4),
    (STREAM_CURVE, EIGHT_PAGES, 65_536, 1, 0),
    (STREAM_CURVE, EIGHT_PAGES, 65_536, 2, 3844),
    (STREAM_CURVE, EIGHT_PAGES, 65_536, 3, 7692),
    (STREAM_CURVE, EIGHT_PAGES, 65_536, 4, 11538),
    (STREAM_CURVE, EIGHT_PAGES, 65_536, 5, 15381),
    (STREAM_CURVE, EIGHT_PAGES, 65_536, 6, 19224),
    (STREAM_CURVE, EIGHT_PAGES, 65_536, 7, 23067),
    (STREAM_CURVE, EIGHT_PAGES, 65_536, 8, 26910),
    (STREAM_CURVE, EIGHT_PAGES, 65_536, 9, 30753),
    (STREAM_CURVE, EIGHT_PAGES, 65_536, 10, 34596),
    (MAKE, "", 0, 0, 0),
    (MAKE, "", 4, 0, 4),
    (MAKE, "", 121, 0, 121),
    (MAKE, "", 16_384, 1, 0),
];

/// Whether the run of a row prints so many of the bytes that it prints into an ample sink.
fn is_cut<R: Abort + AllocGlobal + Threads + Wait + Sync>(rt: &R, row: &Cut) -> bool {
    let (words, lines, limit, write, gone) = *row;
    let (whole, all) = ran(rt, words, lines, AMPLE, stores_of(rt, "writes; writes"));
    let streams = (limit, 0, write);
    let (cut, sink) = ran(rt, words, lines, streams, stores_of(rt, "writes; writes"));
    let ends = whole == (DONE, None) && cut == (WRITE_FAULT, None);
    ends && gone < all.bytes().len() && sink.bytes() == &all.bytes()[..gone]
}

#[test]
fn a_sink_that_fails_has_the_first_bytes(rt: HostRuntime) {
    for row in &CUTS {
        assert!(rt; is_cut(&rt, row), "{} bytes", row.4);
    }
}

/// The counts after each of two calls, a map and a load, over 512 frames.
const AFTER_TWO: &[u8] = b"after 1 0 0 0 0 0 0 512 0 0 0\nafter 2 0 1 0 0 0 0 504 7 1 0\n";

#[test]
fn a_refused_line_ends_a_stream_behind_the_calls_before_it(rt: HostRuntime) {
    let begun = "trace 1 512 1 1; 0 map 0 0 8 fixed write; 0 load 0 0; ";
    let line = |number, cause| TraceFault::Line { number, cause };
    for (rest, fault) in [
        ("0 lode 0 0; end", line(4, LineCause::Form)),
        ("0 load 0 9; end", line(4, LineCause::Range)),
        ("end; end", line(5, LineCause::After)),
        ("0 load 0 00", line(4, LineCause::Number)),
    ] {
        let lines = [begun, rest].concat(rt.alloc()).expect(&rt, NO_MEMORY);
        let (told, sink) = ran(
            &rt,
            &["stream", "1"],
            &lines,
            AMPLE,
            stores_of(&rt, "writes"),
        );
        assert!(rt; told == (REFUSED, Some(fault)) && sink.bytes() == AFTER_TWO);
    }
}

/// Whether the curves of a stream are those of the same trace by `curve`, as far as these go.
fn goes_on<R: Abort + AllocGlobal + Threads + Wait + Sync>(rt: &R, lines: &str) -> bool {
    let stores = || stores_of(rt, "writes; writes");
    let (told, kept) = ran(rt, &["curve"], lines, AMPLE, stores());
    let (streamed, longer) = ran(rt, STREAM_CURVE, lines, AMPLE, stores());
    let Some(curves) = kept.bytes().strip_suffix(b"end\n") else {
        return false;
    };
    told == (DONE, None) && streamed == (DONE, None) && longer.bytes().starts_with(curves)
}

#[test]
fn the_curves_of_a_stream_begin_as_those_of_a_history(rt: HostRuntime) {
    for lines in [LAST_PAGE, EIGHT_PAGES, TWO_SPACES, NO_REGION] {
        assert!(rt; goes_on(&rt, lines));
    }
}
