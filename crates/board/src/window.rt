// The window: check 4, and the addresses that it stands for.
ghost use Rattle.std.specs.Prelude.{◌≡◌};
ghost use Rattle.laws.specs.Checks.{first_of};
ghost use Rattle.board.specs.Window.{window_checks, window_span};

use address::{PhysAddr, Span};
use answer::{Answer, Refusal};

// The addresses of a window of len bytes from the address first on, or 4. A sum that does not fit stays past the top.
#[tactic(auto, unfolding(crate::specs::Window::window_checks, laws::specs::Checks::first_of))]
pub fn check_window(first: u32, len: usize) -> Answer<Span>
    ensures { result ≡ first_of (window_checks first len) (window_span first len) }
{
    let start = PhysAddr(u64::from(first));
    let end = PhysAddr(start.0.saturating_add(len as u64));
    if end.past_top() {
        Err(Refusal::WindowPastTop)
    } else {
        Ok(Span { start, end })
    }
}
