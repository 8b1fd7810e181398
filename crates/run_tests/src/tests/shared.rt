//! Two calls at once on one pager, each in a thread of its own.
ghost use Rattle.std.specs.Prelude.{◌≡◌, ◌<◌};
ghost use Rattle.pager_model.specs.Bounds.{space_pages};
ghost use Rattle.pager_model.specs.Flat.{space_of_call};
ghost use Rattle.pager_model.specs.TraceText.{IsCall};

use super::machine::stores_of;
use pager_locks::shared::share;
use pager_model::{Call, Kind, Rights};

/// A call that maps eight pages of the first space, from this one on.
fn map_from(page: u32) -> Call
    requires { page < space_pages }
    ensures on { space_of_call result ≡ 0 }
    ensures can { IsCall 1 result }
{
    Call::Map {
        space: 0,
        page,
        length: 8,
        kind: Kind::Fixed,
        rights: Rights::Write,
    }
}

#[test]
fn two_calls_on_one_pager_are_both_gathered(rt: HostRuntime) {
    let stores = stores_of(&rt, "");
    assert!(rt; stores.len() == 1);
    let Ok(gathered) = share(&rt, rt.alloc(), stores, &map_from(0), &map_from(8)) else {
        panic!(rt; "no memory");
    };
    assert!(rt; gathered.history.len() == 2 && gathered.stores.len() == 1);
    drop(gathered);
}
