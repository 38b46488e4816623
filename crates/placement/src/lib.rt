// Placement: the items of a load, each at the lowest address at which it lies wholly in open memory that is not taken.
#![tactic(auto)]

ghost use Rattle.std.specs.Prelude.{◌≡◌, ◌<◌, take};
ghost use Rattle.placement.specs.Free.{max_spans};
ghost use Rattle.placement.specs.Order.{with_span};

use address::{PhysAddr, Span};

mod free;
mod lowest;
pub mod order;

// At most so many items: 16 modules and the information block.
pub const MAX_ITEMS: usize = 17;

// At most so many spans: those of 16 kernel extents and the items.
pub const MAX_SPANS: usize = 33;

// Spans taken: the kernel's extents first, then the items placed.
#[derive(Clone, Copy)]
pub struct Spans {
    pub list: [Span; MAX_SPANS],
    pub count: usize,
}

impl Spans {
    // The spans there are: the first `count` of the array, or all that it holds.
    fn spans(&self) -> &[Span]
        ensures { result.now ≡ take self.now.count self.now.list }
    {
        &self.list[..self.count.min(MAX_SPANS)]
    }

    // One span more.
    #[tactic(auto, unfolding(crate::specs::Order::with_span))]
    fn push(&mut self, span: Span)
        requires { self.old.count < max_spans }
        ensures { self.new ≡ with_span self.old span }
    {
        self.list[self.count] = span;
        self.count += 1;
    }
}

// What is to be placed: so many bytes, on a page boundary or on one of four bytes, that end at or below the ceiling.
#[derive(Clone, Copy)]
pub struct Item {
    pub length: u64,
    pub pages: bool,
    pub ceiling: PhysAddr,
}

// The items of a load: the modules, then the information block.
#[derive(Clone, Copy)]
pub struct Items {
    pub list: [Item; MAX_ITEMS],
    pub count: usize,
}
