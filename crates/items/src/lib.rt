// The items of a load, the kernel's extents that they are placed beside, and the spans of the modules among those placed.
#![tactic(auto)]

ghost use Rattle.std.specs.Prelude.{◌≡◌, ◌+◌, ◌≤◌};
ghost use Rattle.submission.specs.Format.{max_modules};
ghost use Rattle.placement.specs.Free.{max_spans};
ghost use Rattle.kernel.specs.Kernel.{max_segments};
ghost use Rattle.items.specs.LoadItems.{extents_of, ceiling_of, load_item, items_of, module_spans};

use address::{PhysAddr, Span};
use kernel::Kernel;
use placement::{Item, Items, Spans};
use submission::Layout;

// The unit of a ceiling.
const MIB: u64 = 0x100000;

// The kernel's extents, as spans taken.
pub fn extents(kernel: &Kernel) -> Spans
    requires { kernel.now.count ≤ max_segments }
    ensures { result ≡ extents_of kernel.now }
{
    let mut spans = Spans {
        list: [Span::none(); placement::MAX_SPANS],
        count: kernel.count,
    };
    for (i, segment) in kernel.segments[..kernel.count].iter().enumerate() {
        spans.list[i] = segment.extent();
    }
    spans
}

// The modules of a submission, on pages or not, and an information block of `size` bytes, as items.
pub fn items(layout: &Layout, pages: bool, size: u64) -> Items
    requires { layout.now.count ≤ max_modules }
    ensures { result ≡ items_of layout.now pages size }
{
    let none = Item {
        length: 0,
        pages: false,
        ceiling: PhysAddr(0),
    };
    let mut items = Items {
        list: [none; placement::MAX_ITEMS],
        count: layout.count + 1,
    };
    for i in 0..items.count {
        items.list[i] = item(layout, pages, size, i);
    }
    items
}

// The item of an index: a module, or behind the last one the information block.
#[tactic(auto, unfolding(crate::specs::LoadItems::load_item))]
fn item(layout: &Layout, pages: bool, size: u64, i: usize) -> Item
    requires { (layout.now.count ≤ max_modules) × (i ≤ layout.now.count) }
    ensures { result ≡ load_item layout.now pages size i }
{
    if i < layout.count {
        let m = layout.modules[i];
        return Item {
            length: m.data.len as u64,
            pages,
            ceiling: ceiling(layout.ceilings[i]),
        };
    }
    Item {
        length: size,
        pages: false,
        ceiling: PhysAddr(usable::ADDRESS_SPACE),
    }
}

// Where a module with a ceiling of so many MiB ends at the latest; 0 is none, and then it is where addresses end.
#[tactic(auto, unfolding(crate::specs::LoadItems::ceiling_of))]
fn ceiling(count: u16) -> PhysAddr
    ensures { result ≡ record { 0 = ceiling_of count } }
{
    if count == 0 {
        return PhysAddr(usable::ADDRESS_SPACE);
    }
    PhysAddr(count as u64 * MIB)
}

// The spans of `count` modules among those placed, of which the first is at the index `from`.
pub fn module_spans(spans: &Spans, from: usize, count: usize) -> [Span; submission::MAX_MODULES]
    requires { (count ≤ max_modules) × (from + count ≤ max_spans) }
    ensures { result ≡ module_spans spans.now from count }
{
    let mut list = [Span::none(); submission::MAX_MODULES];
    for (i, span) in spans.list[from..from + count].iter().enumerate() {
        list[i] = *span;
    }
    list
}
