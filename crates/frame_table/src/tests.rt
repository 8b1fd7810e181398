//! A table with ample memory.

use super::{FrameTable, Refusal};
use pager_model::{Sizes, Want};

/// A want of page 0 alone.
const PAGE: Want = Want {
    low: 0,
    high: 1,
    cap: 1,
    wired: false,
};

#[test]
fn a_page_gets_a_frame_once(rt: HostRuntime) {
    let made = FrameTable::create(rt.alloc(), 512, 1, Sizes::all());
    let mut table = made.expect(&rt, "no memory");
    assert!(rt; table.take(0, 0, &PAGE) == Ok(0));
    assert!(rt; table.take(0, 0, &PAGE) == Err(Refusal::Placed));
}
