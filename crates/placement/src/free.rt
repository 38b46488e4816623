// Free memory: open and in no span taken.
ghost use Rattle.std.specs.Prelude.{◌≡◌};
ghost use Rattle.board.specs.Open.{is_open};
ghost use Rattle.placement.specs.Free.{is_taken, is_free};
ghost use Rattle.placement.specs.FreeEdge.{taken_edge, free_edge};

use crate::Spans;
use address::PhysAddr;
use board::Board;

// Whether the address lies in a span taken.
fn is_taken(taken: &Spans, a: PhysAddr) -> bool
    ensures { result ≡ is_taken taken.now a.0 }
{
    taken.spans().iter().any(|span| span.contains(a))
}

// Whether the address is free.
#[tactic(auto, unfolding(crate::specs::Free::is_free))]
pub(crate) fn is_free(board: &Board, taken: &Spans, a: PhysAddr) -> bool
    ensures { result ≡ is_free (is_open board.now) taken.now a.0 }
{
    !is_taken(taken, a) && board.is_open(a)
}

// The nearest edge of a span taken past x and before e, else e.
fn taken_edge(taken: &Spans, x: PhysAddr, e: PhysAddr) -> PhysAddr
    ensures { result.0 ≡ taken_edge taken.now x.0 e.0 }
{
    taken
        .spans()
        .iter()
        .fold(e, |f, span| edge::span_edge(*span, x, f))
}

// The nearest edge of the board or a span taken past x: up to it all addresses are free, or none is.
#[tactic(auto, unfolding(crate::specs::FreeEdge::free_edge))]
pub(crate) fn free_edge(board: &Board, taken: &Spans, x: PhysAddr) -> PhysAddr
    ensures { result.0 ≡ free_edge board.now taken.now x.0 }
{
    taken_edge(taken, x, board.open_edge(x))
}
