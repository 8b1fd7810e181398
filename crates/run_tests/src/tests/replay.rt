//! Runs with a thread for each processor, of which each has a space of its own: what they print doesn't depend on the order of their steps.
mod gated;

use super::command::{AMPLE, ran};
use super::machine::{stores_of, text_of};
use gated::{calls_that_meet, write_that_awaits_a_read};
use pager_command::DONE;
use std::process::Abort;
use std::sync::Wait;
use std::sync::atomic::AtomicBool;
use std::thread::Threads;
use store_core::Store;

/// Whether a trace prints these lines over these stores.
fn prints<R: Abort + AllocGlobal + Threads + Wait + Sync, S: Store + Send + Drop>(
    rt: &R,
    trace: &str,
    stores: Vec<S>,
    lines: &str,
) -> bool {
    let (told, sink) = ran(rt, &["replay"], trace, AMPLE, stores);
    told == (DONE, None) && sink.bytes() == text_of(rt, lines).as_bytes()
}

/// How often the calls of two processors are run.
const TIMES: u32 = 10;

const TWO_LOADS: &str =
    "trace 1 512 2 2; 0 map 0 0 8 fixed write; 0 load 0 0; 1 map 1 0 8 fixed write; 1 load 1 0; end";

const TWO_LOADS_TEXT: &str =
    "0 0 done; 0 1 value 0 miss 0; 1 0 done; 1 1 value 0 miss 0; tiles 2 0 0 0; promotions 0; \
demotions 0; preemptions 0; images 0 2; frames 496 14 2; end";

const EVICT_AND_LOAD: &str =
    "trace 1 512 2 2; 0 map 0 0 8 fixed write; 0 store 0 0 5; 0 evict 0 0; 1 map 1 0 8 fixed write; \
1 load 1 0; end";

const EVICT_AND_LOAD_TEXT: &str =
    "0 0 done; 0 1 done miss 0; 0 2 written; 1 0 done; 1 1 value 0 miss 0; tiles 1 0 0 0; \
promotions 0; demotions 0; preemptions 0; images 0 2; frames 504 7 1; end";

#[test]
fn calls_on_two_spaces_run_at_once(rt: HostRuntime) {
    // Each of two reads waits for the other, and then a write and a read do.
    for (trace, writes, text) in [
        (TWO_LOADS, false, TWO_LOADS_TEXT),
        (EVICT_AND_LOAD, true, EVICT_AND_LOAD_TEXT),
    ] {
        for _ in 0..TIMES {
            let (first, second) = (AtomicBool::new(false), AtomicBool::new(false));
            let stores = calls_that_meet(&rt, &first, &second, writes);
            assert!(rt; prints(&rt, trace, stores, text), "{trace}");
        }
    }
}

#[test]
fn a_write_may_wait_for_a_read_of_another_space(rt: HostRuntime) {
    for _ in 0..TIMES {
        let begun = AtomicBool::new(false);
        let stores = write_that_awaits_a_read(&rt, &begun);
        assert!(rt; prints(&rt, EVICT_AND_LOAD, stores, EVICT_AND_LOAD_TEXT));
    }
}

const FAILING: &str =
    "trace 1 512 2 2; 0 map 0 0 8 fixed write; 0 load 0 0; 0 load 0 0; 1 map 1 0 8 fixed write; 1 store 1 0 5; \
1 sync 1 0; 1 sync 1 0; end";

const FAILING_TEXT: &str =
    "0 0 done; 0 1 storefault 0 1; 0 2 value 0 miss 0; 1 0 done; 1 1 done miss 0; 1 2 storefault 1 1; \
1 3 written; tiles 2 0 0 0; promotions 0; demotions 0; preemptions 0; images 0 2; frames 496 14 2; end";

#[test]
fn a_failure_is_answered_where_the_call_met_it(rt: HostRuntime) {
    for _ in 0..TIMES {
        let stores = stores_of(&rt, "reads 1 writes; reads writes 1");
        assert!(rt; prints(&rt, FAILING, stores, FAILING_TEXT));
    }
}
