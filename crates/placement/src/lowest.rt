// The lowest place of one item.
ghost use Rattle.std.specs.Prelude.{◌≡◌, ◌≤◌};
ghost use Rattle.address.specs.Address.{top};
ghost use Rattle.board.specs.Open.{is_open};
ghost use Rattle.placement.specs.Lowest.{under_ceiling, lowest_place};

use crate::{Item, Spans, free};
use address::PhysAddr;
use board::Board;

// Whether the item, placed at a, ends at or below its ceiling.
#[tactic(auto, unfolding(crate::specs::Lowest::under_ceiling))]
fn under_ceiling(item: &Item, a: PhysAddr) -> bool
    ensures { result ≡ under_ceiling item.now a.0 }
{
    item.length <= item.ceiling.0 && a.0 <= item.ceiling.0 - item.length
}

// The lowest place of an item beside the spans taken, or none where no address serves. From a candidate a, x goes from edge
// to edge as long as it meets free addresses; past others the next candidate is the edge, rounded up. The walk ends at the first
// candidate from which the item would end above its ceiling.
pub(crate) fn lowest_place(board: &Board, taken: &Spans, item: &Item) -> Option<PhysAddr>
    requires { board.now.window.end.0 ≤ top }
    ensures { result ≡ lowest_place (is_open board.now) taken.now item.now }
{
    let mut a = PhysAddr::lowest(item.pages);
    let mut x = a;
    while under_ceiling(item, a) {
        if item.length <= x.0 - a.0 {
            return Some(a);
        }
        if board.window.end <= x {
            return None;
        }
        let e = free::free_edge(board, taken, x);
        if free::is_free(board, taken, x) {
            x = e;
        } else {
            a = e.round_up(item.pages);
            x = a;
        }
    }
    None
}
