// Edges: the addresses at which a span begins or ends. From one edge up to the next, either all addresses lie in the span or none does.
#![tactic(auto)]

ghost use Rattle.std.specs.Prelude.{◌≡◌};
ghost use Rattle.edge.specs.Edge.{nearest, span_edge};

use address::{PhysAddr, Span};

// v where it lies past x and before e, else e.
#[tactic(auto, unfolding(crate::specs::Edge::nearest))]
pub fn nearer(x: PhysAddr, e: PhysAddr, v: PhysAddr) -> PhysAddr
    ensures { result.0 ≡ nearest x.0 e.0 v.0 }
{
    if x < v && v < e { v } else { e }
}

// The nearest edge of a span past x and before e, else e.
#[tactic(auto, unfolding(crate::specs::Edge::span_edge))]
pub fn span_edge(span: Span, x: PhysAddr, e: PhysAddr) -> PhysAddr
    ensures { result.0 ≡ span_edge span.start.0 span.end.0 x.0 e.0 }
{
    nearer(x, nearer(x, e, span.start), span.end)
}
