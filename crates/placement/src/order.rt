// The items of a load placed in order.
ghost use Rattle.std.specs.Prelude.{◌≡◌};
ghost use Rattle.board.specs.Open.{is_open};
ghost use Rattle.placement.specs.Order.{place_items};
ghost use Rattle.placement.specs.Ready.{Ready};

use crate::{Items, Spans, lowest};
use address::{PhysAddr, Span};
use board::Board;

// Places the items in order, each at its lowest place beside the spans and the items before it, up to the first with no room; adds
// their spans, and gives how many were placed.
pub fn place_items(board: &Board, spans: &mut Spans, items: &Items) -> usize
    requires { Ready board.now spans.old items.now }
    ensures { record { spans = spans.new; done = result } ≡ place_items (is_open board.now) spans.old items.now }
{
    for (i, item) in items.list[..items.count].iter().enumerate() {
        let Some(a) = lowest::lowest_place(board, spans, item) else {
            return i;
        };
        let end = PhysAddr(a.0 + item.length);
        spans.push(Span { start: a, end });
    }
    items.count
}
