//! With memory there a map is made, and nothing is placed in it.

use super::NO_MEMORY;
use population_map::PopulationMap;
use std::process::Abort;

#[test]
fn a_map_is_made_where_there_is_memory(rt: HostRuntime) {
    let made = PopulationMap::create(rt.alloc(), 16, 32_768).expect(&rt, NO_MEMORY);
    assert!(rt; made.spaces() == 16);
}
