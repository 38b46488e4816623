// Which addresses are usable by a memory map. A pair is taken as it stands: the sum of base and length is never made where it could wrap.
#![tactic(auto)]

ghost use Rattle.std.specs.Prelude.{◌≡◌, ◌+◌};
ghost use Rattle.edge.specs.Edge.{span_edge};
ghost use Rattle.usable.specs.Usable.{covers, is_usable};
ghost use Rattle.usable.specs.MapEdge.{map_edge};

use address::PhysAddr;
use memory_map::{MemoryMap, Pair};

pub mod sizes;

// The type of a pair of usable memory.
const RAM: u64 = 1;

// Usable addresses are below this.
pub const ADDRESS_SPACE: u64 = 0x100000000;

// Whether the pair covers the address.
#[tactic(auto, unfolding(crate::specs::Usable::covers, address::specs::Address::inside))]
fn pair_covers(pair: &Pair, a: PhysAddr) -> bool
    ensures { result ≡ covers pair.now a.0 }
{
    pair.base <= a.0 && a.0 - pair.base < pair.length
}

// Whether the address is usable: some pair of usable memory covers it, and no pair of another type does.
pub fn is_usable(map: &MemoryMap, a: PhysAddr) -> bool
    ensures { result ≡ is_usable map.now a.0 }
{
    if ADDRESS_SPACE <= a.0 {
        return false;
    }
    let mut found = false;
    for pair in map.pairs() {
        if pair_covers(pair, a) {
            if pair.kind != RAM {
                return false;
            }
            found = true;
        }
    }
    found
}

// The nearest edge of a pair past x and before e, else e.
#[tactic(auto, unfolding(edge::specs::Edge::span_edge, edge::specs::Edge::nearest))]
fn pair_edge(pair: &Pair, x: PhysAddr, e: PhysAddr) -> PhysAddr
    ensures { result.0 ≡ span_edge pair.now.base (pair.now.base + pair.now.length) x.0 e.0 }
{
    let f = edge::nearer(x, e, PhysAddr(pair.base));
    match pair.base.checked_add(pair.length) {
        Some(end) => edge::nearer(x, f, PhysAddr(end)),
        None => f,
    }
}

// The nearest edge of a pair of the map, or of all addresses, past x and before e, else e.
pub fn map_edge(map: &MemoryMap, x: PhysAddr, e: PhysAddr) -> PhysAddr
    ensures { result.0 ≡ map_edge map.now x.0 e.0 }
{
    let end = edge::nearer(x, e, PhysAddr(ADDRESS_SPACE));
    map.pairs()
        .iter()
        .fold(end, |f, pair| pair_edge(pair, x, f))
}
