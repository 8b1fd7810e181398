//! Numbers at the ends of words of all levels of a set.
ghost use Rattle.std.specs.Prelude.{◌≡◌, ◌<◌, ◌≤◌, ◌%◌, length};

use super::NO_MEMORY;
use bit_set::BitSet;
use pager_model::Steps;
use std::alloc::Global;
use std::marker::Brand;
use std::process::Abort;
use std::sync::ledger::{Blank, Ledger};

/// The empty set of the numbers below a bound.
fn none(rt: &impl Abort, alloc: Global, bound: u32) -> BitSet
    requires whole { bound % 64 ≡ 0 }
    requires most { bound ≤ 262144 }
    ensures { length result ≡ bound }
{
    BitSet::create(alloc, bound).expect(rt, NO_MEMORY)
}

/// Whether numbers are found where they were put in, and not where they were taken out again.
fn goes_through<L: Ledger>(set: &mut BitSet, blank: Blank) -> bool
    requires bound { length set.old ≡ 262144 }
    requires name { blank.name ≡ L.name }
    requires parts { blank.parts ≡ L.parts }
    requires share { 0 < blank.parts }
{
    let (book, share) = blank.open::<L>();
    let steps = &mut Steps::begin(book, share);
    let at_first = set.first_from(0, steps);
    set.insert(63, steps);
    set.insert(4_096, steps);
    set.insert(262_143, steps);
    let from_word = set.first_from(63, steps);
    let from_next_word = set.first_from(64, steps);
    let from_group = set.first_from(4_097, steps);
    set.remove(262_143, steps);
    let without = set.first_from(4_097, steps);
    at_first.is_none()
        && from_word == Some(63)
        && from_next_word == Some(4_096)
        && from_group == Some(262_143)
        && without.is_none()
        && set.has(4_096, steps)
}

#[test]
fn finds_the_next_number_over_all_levels(rt: HostRuntime) {
    let mut set = none(&rt, rt.alloc(), 262_144);
    assert!(rt; goes_through::<Brand>(&mut set, Blank::new(1)));
}
