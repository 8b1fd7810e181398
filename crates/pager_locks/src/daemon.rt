//! A paging daemon over a pager that many threads share. It evicts pages while frames are short, so that calls find free ones.

ghost use Rattle.std.specs.Prelude.{◌≡◌, ◌≤◌, ◌<◌, ◌+◌, ◌^◌, length};
ghost use Rattle.pager_model.specs.Legal.{entries_in};
ghost use Rattle.pager_locks.specs.Calls.{MakesTurn};
ghost use Rattle.pager_locks.specs.Prepared.{MayTurn};
ghost use Rattle.pager_locks.specs.Counts.{is_written, is_clean, is_fault, is_unclaim, written_in, clean_in, faults_in, unclaims_in, memory_in, made_since};

use crate::naming::Named;
use crate::pager::Pager;
use journal_core::Pass;
use pager_model::{Numbered, What};
use std::sync::Wait;
use store_core::Store;

/// What a turn did, in pages.
#[derive(Clone, Copy, Debug, PartialEq, Eq)]
pub struct Turned {
    /// Paged out, written to their copies.
    pub written: u32,
    /// Paged out, equal to their copies. A page that gave its frame up before it was paged out is in none of these counts.
    pub clean: u32,
    /// Not paged out, since their store failed: at most one, and the turn ends with it.
    pub faults: u32,
    /// Not paged out, for want of memory to write them: at most one, and the turn ends with it.
    pub memory: u32,
}

/// Makes a turn of the pass's processor, which is a daemon of this low mark: it evicts while free frames and unused places together are fewer than
/// the mark and a page can be evicted, at most as many times as the mark. Each frame that it wins goes free. A write that fails, or that finds no
/// memory, ends the turn; any other ends with a rest.
pub fn turn<N: Named, S: Store + Send + Drop, R: Wait>(
    pager: &Pager<N, S>,
    rt: &R,
    pass: Pass,
    low: u32,
) -> (Turned, Pass)
    requires pass { MayTurn N.journal pass low }
    ensures turn { MakesTurn pass result.1 low }
    ensures written { result.0.written ≡ written_in (made_since pass result.1) }
    ensures clean { result.0.clean ≡ clean_in (made_since pass result.1) }
    ensures faults { result.0.faults ≡ faults_in (made_since pass result.1) }
    ensures memory { result.0.memory ≡ memory_in (made_since pass result.1) }
    ensures few { (result.0.written + result.0.clean ≤ low) × (result.0.faults + result.0.memory ≤ 1) }
{
    let before = pass.entries().len();
    let pass = pager.turn(rt, pass, low);
    let turned = count(&pass.entries()[before..]);
    (turned, pass)
}

/// Counts the entries of a turn.
fn count(entries: &[Numbered]) -> Turned
    requires few { length entries.now < 2 ^ 32 }
    requires given_up { faults_in (entries_in entries.now) ≤ unclaims_in (entries_in entries.now) }
    ensures { result ≡ record {
      written = written_in (entries_in entries.now);
      clean = clean_in (entries_in entries.now);
      faults = faults_in (entries_in entries.now);
      memory = memory_in (entries_in entries.now);
    } }
{
    let (mut written, mut clean, mut faults, mut unclaims): (u32, u32, u32, u32) = (0, 0, 0, 0);
    for numbered in entries {
        let what = &numbered.entry.what;
        written += u32::from(is_written(what));
        clean += u32::from(is_clean(what));
        faults += u32::from(is_fault(what));
        unclaims += u32::from(is_unclaim(what));
    }
    Turned {
        written,
        clean,
        faults,
        memory: unclaims - faults,
    }
}

/// Whether a page was written to its copy and paged out.
fn is_written(what: &What) -> bool
    ensures { result ≡ is_written what.now }
{
    matches!(what, What::Out { written: true, .. })
}

/// Whether a page was paged out that was equal to its copy.
fn is_clean(what: &What) -> bool
    ensures { result ≡ is_clean what.now }
{
    matches!(what, What::Out { written: false, .. })
}

/// Whether a store failed.
fn is_fault(what: &What) -> bool
    ensures { result ≡ is_fault what.now }
{
    matches!(what, What::Failed { .. })
}

/// Whether a claim was given up.
fn is_unclaim(what: &What) -> bool
    ensures { result ≡ is_unclaim what.now }
{
    matches!(what, What::Unclaim { .. })
}
