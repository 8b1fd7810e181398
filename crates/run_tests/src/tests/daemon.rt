//! A daemon's turns: one where every frame is used, and one where as many are free as it keeps.
ghost use Rattle.std.specs.Prelude.{◌≡◌, ◌<◌, [], ◌∷◌, length};
ghost use Rattle.journal_core.specs.Journals.{new_passes};
ghost use Rattle.pager_model.specs.Flat.{space_of_call};
ghost use Rattle.pager_model.specs.TraceText.{IsCall};
ghost use Rattle.run_tests.specs.Calling.{MayMakeCalls};

use super::machine::{NO_MEMORY, stores_of};
use journal_core::Pass;
use pager_locks::daemon::{Turned, turn};
use pager_locks::{Named, Pager, Prepared, Running};
use pager_model::{Call, Kind, Rights, Sizes};
use std::marker::Brand;
use std::process::Abort;
use std::sync::Wait;
use store_core::MemoryStore;

/// As many as there are frames.
const PAGES: u32 = 512;

/// How many frames the daemon keeps free.
const LOW: u32 = 2;

/// The call that maps the pages.
fn map_call() -> Call
    ensures on { space_of_call result ≡ 0 }
    ensures can { IsCall 1 result }
{
    Call::Map {
        space: 0,
        page: 0,
        length: PAGES,
        kind: Kind::Fixed,
        rights: Rights::Write,
    }
}

/// A store to the first page, or a load of another one.
fn access(page: u32) -> Call
    requires { page < PAGES }
    ensures on { space_of_call result ≡ 0 }
    ensures can { IsCall 1 result }
{
    let address = u64::from(page) * 8192;
    if page == 0 {
        Call::Store {
            space: 0,
            address,
            word: 5,
        }
    } else {
        Call::Load { space: 0, address }
    }
}

/// Maps the pages and makes each of them resident, the first one dirty and the others clean.
fn use_all_frames<N: Named, R: Wait>(rt: &R, pager: &Pager<N, MemoryStore>, pass: Pass)
    requires pass { MayMakeCalls N.journal pass 513 }
    requires space { length N.journal.setting.told ≡ 1 }
{
    let (_, mut pass) = pager.call(rt, pass, &map_call());
    for page in 0..PAGES {
        pass = pager.call(rt, pass, &access(page)).1;
    }
}

/// Opens a pager, uses every frame with the first pass, and makes two turns with the second.
fn turn_twice<N: Named, R: Wait>(rt: &R, prepared: Prepared<MemoryStore>) -> [Turned; 2]
    requires named { prepared.journal.name ≡ N.journal }
    requires marks { N.journal.setting.marks ≡ 0 ∷ LOW ∷ [] }
    requires space { length N.journal.setting.told ≡ 1 }
    requires passes { prepared.passes ≡ new_passes N.journal 0 (4104 ∷ 18 ∷ []) }
{
    let Running { pager, mut passes } = prepared.open::<N>();
    let Some(daemon) = passes.pop() else {
        unreachable!()
    };
    let Some(caller) = passes.pop() else {
        unreachable!()
    };
    use_all_frames(rt, &pager, caller);
    let (first, daemon) = turn(&pager, rt, daemon, LOW);
    let (second, _) = turn(&pager, rt, daemon, LOW);
    drop(pager);
    [first, second]
}

/// What is told of a turn that paged out so many pages written and so many clean.
fn turned(written: u32, clean: u32) -> Turned {
    Turned {
        written,
        clean,
        faults: 0,
        memory: 0,
    }
}

#[test]
fn a_turn_evicts_as_many_pages_as_frames_are_short(rt: HostRuntime) {
    let stores = stores_of(&rt, "");
    assert!(rt; stores.len() == 1);
    // Room for 513 calls, and for two turns.
    let made = Prepared::create(
        rt.alloc(),
        PAGES,
        Sizes::all(),
        &[0, LOW],
        stores,
        &[4104, 18],
    );
    let Ok(prepared) = made else {
        panic!(rt; "no memory");
    };
    let turns = turn_twice::<Brand, HostRuntime>(&rt, prepared);
    // The oldest page is the dirty one. Then two frames are free.
    assert!(rt; turns == [turned(1, 1), turned(0, 0)]);
}
