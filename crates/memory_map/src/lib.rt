// A memory map in the standard's pair form: check 5, and its pairs.
#![tactic(auto)]

ghost use Rattle.std.specs.Prelude.{◌≡◌, false, ◌||◌, ◌+◌, ◌^◌, ◌≤◌, ◌<◌, take, length, SomeIff};
ghost use Rattle.memory_map.specs.Pairs.{kind_offset, next_offset};
ghost use Rattle.memory_map.specs.Map.{pair_at, too_small, past_end};
ghost use Rattle.memory_map.specs.Parse.{parsed_map, no_map};

use answer::{Answer, Refusal};

// The limits of a map.
pub const MAX_PAIRS: usize = 32;

const MAX_MAP: usize = 4096;

const MIN_PAIR_SIZE: usize = 20;

// The bytes of a pair's size field, and where its other fields stand.
const SIZE_BYTES: usize = 4;

const BASE_OFFSET: usize = 4;

const LENGTH_OFFSET: usize = 12;

const KIND_OFFSET: usize = 20;

// A stretch of memory: the addresses from base on, as many as length says, of one type, which is wide so that there is no gap.
#[derive(Clone, Copy, Default)]
pub struct Pair {
    pub base: u64,
    pub length: u64,
    pub kind: u64,
}

// The pairs of a map; past the last the entries are zero.
#[derive(Clone, Copy, Default)]
pub struct MemoryMap {
    pub pairs: [Pair; MAX_PAIRS],
    pub count: usize,
}

impl MemoryMap {
    // The pairs that are there: as many as the count says, and no more than the array holds.
    pub fn pairs(&self) -> &[Pair]
        ensures { result.now ≡ take self.now.count self.now.pairs }
    {
        let count = self.count.min(MAX_PAIRS);
        &self.pairs[..count]
    }
}

// Reads a map, or refuses it where it breaks a rule of its format.
pub fn parse(m: &[u8]) -> Answer<MemoryMap>
    ensures { result ≡ parsed_map m.now }
{
    if m.is_empty() || MAX_MAP < m.len() {
        return Err(Refusal::BadMemoryMap);
    }
    let mut map = no_map();
    let mut at = 0;
    // The walk goes by offset: the size of each pair says where the next begins.
    while at < m.len() {
        let Some(next) = next_pair(m, at) else {
            return Err(Refusal::BadMemoryMap);
        };
        if map.count == MAX_PAIRS {
            return Err(Refusal::BadMemoryMap);
        }
        map.pairs[map.count] = read_pair(m, at);
        map.count += 1;
        at = next;
    }
    Ok(map)
}

// Where the next pair begins, unless the one at `at` is too small or runs past the end.
#[tactic(auto, unfolding(crate::specs::Map::too_small, crate::specs::Map::past_end, crate::specs::Pairs::next_offset))]
fn next_pair(m: &[u8], at: usize) -> Option<usize>
    requires { at ≤ length m.now }
    ensures { SomeIff result (too_small m.now at || past_end m.now at ≡ false) (next_offset m.now at) }
{
    let size = number::read_u32(m, at) as usize;
    let next = at + size + SIZE_BYTES;
    (MIN_PAIR_SIZE <= size && next <= m.len()).then_some(next)
}

// The pair at `at`.
#[tactic(auto, unfolding(crate::specs::Map::pair_at))]
fn read_pair(m: &[u8], at: usize) -> Pair
    requires { at + kind_offset < 2 ^ 64 }
    ensures { result ≡ pair_at m.now at }
{
    Pair {
        base: number::read_u64(m, at + BASE_OFFSET),
        length: number::read_u64(m, at + LENGTH_OFFSET),
        kind: number::read_u32(m, at + KIND_OFFSET) as u64,
    }
}

// A map of no pairs.
fn no_map() -> MemoryMap
    ensures { result ≡ no_map }
{
    MemoryMap {
        pairs: [Pair::default(); MAX_PAIRS],
        count: 0,
    }
}
