// The checks on memory, 15 to 17, and the plan.
ghost use Rattle.std.specs.Prelude.{◌≡◌, ◌+◌, ◌≤◌, MatchResult};
ghost use Rattle.laws.specs.Checks.{first_of};
ghost use Rattle.submission.specs.Format.{max_modules};
ghost use Rattle.kernel.specs.Kernel.{max_segments};
ghost use Rattle.decision.specs.PlacedLaws.{Prepared};
ghost use Rattle.decision.specs.Decided.{extent_open, kernel_open, room_checks, memory_checks, memory_plan};

use crate::Plan;
use answer::{Answer, Refusal};
use board::Board;
use kernel::Kernel;
use submission::Layout;

// The number handed over in EAX.
const BOOT_MAGIC: u32 = 0x2BADB002;

// Whether every address of the kernel's extents is open.
fn kernel_open(board: &Board, kernel: &Kernel) -> bool
    requires { kernel.now.count ≤ max_segments }
    ensures { result ≡ kernel_open board.now kernel.now }
{
    (0..kernel.count).all(|i| extent_open(board, kernel, i))
}

// Whether every address of one extent is open.
#[tactic(auto, unfolding(crate::specs::Decided::extent_open))]
fn extent_open(board: &Board, kernel: &Kernel, i: usize) -> bool
    requires { i + 1 ≤ max_segments }
    ensures { result ≡ extent_open board.now kernel.now i }
{
    board.all_open(kernel.segments[i].extent())
}

// The answer where `done` of n modules and the information block found room.
#[tactic(auto, unfolding(crate::specs::Decided::room_checks, laws::specs::Checks::first_of))]
fn check_room(done: usize, n: usize) -> Answer<()>
    requires { n ≤ max_modules }
    ensures { result ≡ first_of (room_checks done n) tt }
{
    if done < n {
        Err(Refusal::NoRoomForModule(done as u32))
    } else if done <= n {
        Err(Refusal::NoRoomForBlock)
    } else {
        Ok(())
    }
}

// Checks 15 to 17 of a kernel with the modules of a submission and an information block of `size` bytes; puts the plan of a load into
// `plan`, and leaves it as it is in a refusal.
pub(crate) fn decide_memory(
    board: &Board,
    kernel: &Kernel,
    layout: &Layout,
    size: u64,
    plan: &mut Plan,
) -> Answer<()>
    requires { Prepared board.now kernel.now layout.now size }
    ensures value { result ≡ first_of (memory_checks board.now kernel.now layout.now size) tt }
    ensures plan_after { MatchResult result (λ _. plan.new ≡ memory_plan board.now kernel.now layout.now size) (λ _. plan.new ≡ plan.old) }
{
    if !kernel_open(board, kernel) {
        return Err(Refusal::KernelNotOpen);
    }
    let mut spans = items::extents(kernel);
    let done = placement::order::place_items(
        board,
        &mut spans,
        &items::items(layout, kernel.pages, size),
    );
    check_room(done, layout.count)?;
    let block = spans.list[kernel.count + layout.count];
    *plan = Plan {
        kernel: *kernel,
        modules: items::module_spans(&spans, kernel.count, layout.count),
        block,
        eax: BOOT_MAGIC,
        ebx: block.start.0 as u32,
    };
    Ok(())
}
