// The sizes of lower and upper memory.
ghost use Rattle.std.specs.Prelude.{◌≡◌, ◌-◌};
ghost use Rattle.laws.specs.Tests.{run};
ghost use Rattle.usable.specs.Usable.{address_space, is_usable};
ghost use Rattle.usable.specs.Sizes.{mem_lower, mem_upper};

use crate::{ADDRESS_SPACE, is_usable, map_edge};
use address::PhysAddr;
use memory_map::MemoryMap;

// Sizes are given in units of so many bytes.
const KIB: u64 = 1024;

// Lower memory is at most so many units.
const MAX_MEM_LOWER: u64 = 640;

// The number of consecutive usable addresses from start on.
fn usable_run(map: &MemoryMap, start: PhysAddr) -> u64
    ensures { result ≡ run (is_usable map.now) start.0 (address_space - start.0) }
{
    // The walk goes from edge to edge; no index is counted.
    let mut x = start;
    while is_usable(map, x) {
        x = map_edge(map, x, PhysAddr(ADDRESS_SPACE));
    }
    x.0 - start.0
}

// The size of lower memory in whole KiB.
#[tactic(auto, unfolding(crate::specs::Sizes::mem_lower))]
pub fn mem_lower(map: &MemoryMap) -> u32
    ensures { result ≡ mem_lower map.now }
{
    (usable_run(map, PhysAddr(0)) / KIB).min(MAX_MEM_LOWER) as u32
}

// The size of upper memory in whole KiB.
pub fn mem_upper(map: &MemoryMap) -> u32
    ensures { result ≡ mem_upper map.now }
{
    (usable_run(map, PhysAddr::FLOOR) / KIB) as u32
}
