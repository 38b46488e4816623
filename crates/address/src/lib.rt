// The two countings of a load: physical addresses, and offsets in the image. Neither turns into the other here.
#![tactic(auto)]

ghost use Rattle.std.specs.Prelude.{◌≡◌, ◌-◌, ◌<◌, ◌^◌, ltb};
ghost use Rattle.address.specs.Address.{top, boundary_of, floor, round_up, inside};
ghost use Rattle.address.specs.Span.{no_span, overlap};

// A physical address, or the end of a span of them: an exact whole number.
#[derive(Clone, Copy, PartialEq, Eq, PartialOrd, Ord)]
pub struct PhysAddr(pub u64);

// A place in the image, counted from its first byte.
#[derive(Clone, Copy, PartialEq, Eq, PartialOrd, Ord)]
pub struct ImageOffset(pub usize);

// The addresses from start up to but not including end.
#[derive(Clone, Copy, PartialEq, Eq)]
pub struct Span {
    pub start: PhysAddr,
    pub end: PhysAddr,
}

impl PhysAddr {
    // The page size, which page-aligned modules meet.
    pub const PAGE: u64 = 4096;

    // The boundary of every other item.
    pub const WORD: u64 = 4;

    // Items are placed from here up.
    pub const FLOOR: PhysAddr = PhysAddr(0x100000);

    // A window ends here at the latest.
    pub const TOP: PhysAddr = PhysAddr(0xFFFFF000);

    // The boundary of an item: the page size if pages are asked for, else four bytes. `pages` is a bit of the header's flags; it
    // chooses a number and no step.
    fn boundary(pages: bool) -> u64
        ensures { result ≡ boundary_of pages }
    {
        if pages {
            PhysAddr::PAGE
        } else {
            PhysAddr::WORD
        }
    }

    // The lowest multiple of the boundary that is not below the address.
    #[tactic(auto, using(crate::specs::RoundLaws::boundary_some, crate::specs::RoundLaws::next_multiple))]
    pub fn round_up(self, pages: bool) -> PhysAddr
        requires { round_up self.0 (boundary_of pages) < 2 ^ 64 }
        ensures { result.0 ≡ round_up self.0 (boundary_of pages) }
    {
        PhysAddr(self.0.next_multiple_of(PhysAddr::boundary(pages)))
    }

    // The lowest multiple of the boundary from the floor up.
    #[tactic(auto, unfolding(crate::specs::Address::round_up))]
    pub fn lowest(pages: bool) -> PhysAddr
        ensures { result.0 ≡ round_up floor (boundary_of pages) }
    {
        PhysAddr::FLOOR.round_up(pages)
    }

    // How many addresses there are from `base` up to the address; none where it is not above.
    pub fn offset_from(self, base: PhysAddr) -> usize
        ensures { result ≡ self.0 - base.0 }
    {
        self.0.saturating_sub(base.0) as usize
    }

    // Whether the address is above the top.
    pub fn past_top(self) -> bool
        ensures { result ≡ ltb top self.0 }
    {
        PhysAddr::TOP < self
    }
}

impl Span {
    // A span of zeros.
    pub fn none() -> Span
        ensures { result ≡ no_span }
    {
        Span {
            start: PhysAddr(0),
            end: PhysAddr(0),
        }
    }

    // Whether the address lies in the span.
    #[tactic(auto, unfolding(crate::specs::Address::inside))]
    pub fn contains(self, a: PhysAddr) -> bool
        ensures { result ≡ inside self.start.0 self.end.0 a.0 }
    {
        self.start <= a && a < self.end
    }

    // Whether two spans that are not empty share an address.
    #[tactic(auto, unfolding(crate::specs::Span::overlap))]
    pub fn overlaps(self, other: Span) -> bool
        ensures { result ≡ overlap self other }
    {
        self.start < other.end && other.start < self.end
    }
}
