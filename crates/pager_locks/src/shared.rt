//! Two processors share a pager: the shortest program over one, to begin from.
ghost use Rattle.std.specs.Prelude.{◌≡◌, ◌≤◌, [], ◌∷◌, IfOk, IfErr, length, map};
ghost use Rattle.pager_model.specs.Bounds.{most_spaces};
ghost use Rattle.journal_core.specs.Journals.{new_passes};
ghost use Rattle.pager_model.specs.declared.reply.Reply.{Reply as Replied};
ghost use Rattle.pager_model.specs.Entries.{entries_of};
ghost use Rattle.pager_model.specs.Legal.{IsLegal, entries_in};
ghost use Rattle.pager_model.specs.Showing.{answers_in};
ghost use Rattle.pager_model.specs.SizeSets.{all_sizes};
ghost use Rattle.pager_model.specs.Stores.{given_over};
ghost use Rattle.pager_core.specs.Machines.{CanFly};
ghost use Rattle.pager_locks.specs.Calls.{MakesCall};
ghost use Rattle.pager_locks.specs.Prepared.{MayCall};

use crate::naming::Named;
use crate::pager::Pager;
use crate::prepared::{Prepared, Running};
use journal_core::Pass;
use pager_core::Gathered;
use pager_model::{Call, Sizes};
use std::alloc::Global;
use std::marker::Brand;
use std::sync::Wait;
use std::thread;
use std::thread::Threads;
use store_core::Store;

/// Two calls, made by two processors at once on the spaces over these stores. The history is legal, and each processor's answers are those of
/// its one call. For want of memory the stores come back.
pub fn share<S: Store + Send + Drop, R: Threads + Wait + Sync>(
    rt: &R,
    alloc: Global,
    stores: Vec<S>,
    first: &Call,
    second: &Call,
) -> Result<Gathered<S>, Vec<S>>
    requires stores { (1 ≤ length stores.items) × (length stores.items ≤ most_spaces) }
    requires first { CanFly (length stores.items) first.now }
    requires second { CanFly (length stores.items) second.now }
    ensures legal { IfOk result (λ g. IsLegal (given_over 512 all_sizes (0 ∷ 0 ∷ []) (map S.seen stores.items)) (entries_in g.history.items)) }
    ensures first { IfOk result (λ g. answers_in (entries_of 0 (entries_in g.history.items)) ≡ (0, first.now) ∷ []) }
    ensures second { IfOk result (λ g. answers_in (entries_of 1 (entries_in g.history.items)) ≡ (0, second.now) ∷ []) }
    ensures back { IfErr result (λ back. map S.seen back.items ≡ map S.seen stores.items) }
{
    let prepared = Prepared::create(alloc, 512, Sizes::all(), &[0, 0], stores, &[8, 8])?;
    Ok(run::<Brand, S, R>(rt, prepared, first, second))
}

/// Opens the pager, makes both calls, and closes it.
fn run<N: Named + Send + Sync, S: Store + Send + Drop, R: Threads + Wait + Sync>(
    rt: &R,
    prepared: Prepared<S>,
    first: &Call,
    second: &Call,
) -> Gathered<S>
    requires named { prepared.journal.name ≡ N.journal }
    requires marks { N.journal.setting.marks ≡ 0 ∷ 0 ∷ [] }
    requires passes { prepared.passes ≡ new_passes N.journal 0 (8 ∷ 8 ∷ []) }
    requires room { 16 ≤ prepared.journal.room }
    requires first { CanFly (length N.journal.setting.told) first.now }
    requires second { CanFly (length N.journal.setting.told) second.now }
    ensures legal { IsLegal N.journal.setting (entries_in result.history.items) }
    ensures first { answers_in (entries_of 0 (entries_in result.history.items)) ≡ (0, first.now) ∷ [] }
    ensures second { answers_in (entries_of 1 (entries_in result.history.items)) ≡ (0, second.now) ∷ [] }
{
    let Running { pager, mut passes } = prepared.open::<N>();
    let Some(b) = passes.pop() else {
        unreachable!()
    };
    let Some(a) = passes.pop() else {
        unreachable!()
    };
    let (a, b) = call_both(rt, &pager, a, b, first, second);
    passes.push_reserved(a);
    passes.push_reserved(b);
    pager.close(passes)
}

/// Makes each call in a thread of its own, with the pass of its processor.
fn call_both<N: Named + Send + Sync, S: Store + Send + Drop, R: Threads + Wait + Sync>(
    rt: &R,
    pager: &Pager<N, S>,
    a: Pass,
    b: Pass,
    first: &Call,
    second: &Call,
) -> (Pass, Pass)
    requires first { MayCall N.journal a × CanFly (length N.journal.setting.told) first.now }
    requires second { MayCall N.journal b × CanFly (length N.journal.setting.told) second.now }
    ensures first { (reply : Replied) × MakesCall N.journal.setting a result.0 first.now reply }
    ensures second { (reply : Replied) × MakesCall N.journal.setting b result.1 second.now reply }
{
    let ((_, a), (_, b)) = thread::join(
        rt,
        ||
            requires { MayCall N.journal a × CanFly (length N.journal.setting.told) first.now }
        { pager.call(rt, a, first) },
        ||
            requires { MayCall N.journal b × CanFly (length N.journal.setting.told) second.now }
        { pager.call(rt, b, second) },
    );
    (a, b)
}
