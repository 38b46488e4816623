// The memory that a load may write: what the memory map makes usable, inside the window, past interrupt vectors and BIOS data.
#![tactic(auto)]

ghost use Rattle.std.specs.Prelude.{◌≡◌, ◌-◌};
ghost use Rattle.laws.specs.Tests.{all_from};
ghost use Rattle.board.specs.Open.{is_open};
ghost use Rattle.board.specs.OpenEdge.{open_edge};

use address::{PhysAddr, Span};
use memory_map::MemoryMap;

pub mod window;

// The interrupt vectors and the BIOS data area lie below this address.
const BIOS_DATA_END: u64 = 0x500;

// A memory map, and the window that stands for physical memory.
#[derive(Clone, Copy)]
pub struct Board {
    pub map: MemoryMap,
    pub window: Span,
}

impl Board {
    // Whether the address is open: usable, inside the window, and not below the end of the BIOS data area.
    #[tactic(auto, unfolding(crate::specs::Open::is_open))]
    pub fn is_open(&self, a: PhysAddr) -> bool
        ensures { result ≡ is_open self.now a.0 }
    {
        BIOS_DATA_END <= a.0 && self.window.contains(a) && usable::is_usable(&self.map, a)
    }

    // The nearest edge of the window, the BIOS data area or a pair past x, at most the window's end: up to it all addresses
    // are open, or none is.
    #[tactic(auto, unfolding(crate::specs::OpenEdge::open_edge))]
    pub fn open_edge(&self, x: PhysAddr) -> PhysAddr
        ensures { result.0 ≡ open_edge self.now x.0 }
    {
        let of_window = edge::nearer(x, self.window.end, self.window.start);
        let e = edge::nearer(x, of_window, PhysAddr(BIOS_DATA_END));
        usable::map_edge(&self.map, x, e)
    }

    // Whether every address of the span is open.
    pub fn all_open(&self, span: Span) -> bool
        ensures { result ≡ all_from (is_open self.now) span.start.0 (span.end.0 - span.start.0) }
    {
        // The walk goes from edge to edge; no index is counted.
        let mut x = span.start;
        while x.0 < span.end.0 && self.is_open(x) {
            x = self.open_edge(x);
        }
        span.end.0 <= x.0
    }
}
