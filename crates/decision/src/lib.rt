// Deciding a load: all checks in their order, and the plan. Nothing here looks at the window's bytes or at a module's data.
#![tactic(auto)]

ghost use Rattle.std.specs.Prelude.{◌≡◌};
ghost use Rattle.decision.specs.Lent.{lent};
ghost use Rattle.laws.specs.Checks.{first_of};
ghost use Rattle.decision.specs.Decision.{checks, decision_of};
ghost use Rattle.decision.specs.Plan.{no_plan, plan_given};

use address::Span;
use answer::Answer;
use board::Board;
use kernel::Kernel;
use memory_map::MemoryMap;
use submission::Layout;

mod place;

// Where everything of a load lies, and what is handed over besides the entry; past the last module the spans are zero.
#[derive(Clone, Copy)]
pub struct Plan {
    pub kernel: Kernel,
    pub modules: [Span; submission::MAX_MODULES],
    pub block: Span,
    pub eax: u32,
    pub ebx: u32,
}

impl Plan {
    // A plan of zeros, which is that of a refusal.
    #[tactic(auto, unfolding(crate::specs::Plan::no_plan))]
    pub fn none() -> Plan
        ensures { result ≡ no_plan }
    {
        Plan {
            kernel: kernel::no_kernel(),
            modules: [Span::none(); submission::MAX_MODULES],
            block: Span::none(),
            eax: 0,
            ebx: 0,
        }
    }
}

// Decides on a submission, an operator's line, a memory map, and a window of `size` bytes from `first` on: gives the first refusal in
// the order of checks, and puts the plan of a load into `plan`, or zeros. All that is large is read into room of its own, since an
// answer that holds it takes its size once more of the stack.
pub fn decide<'a>(
    submission: &'a [u8],
    operator: &'a [u8],
    map: &[u8],
    first: u32,
    size: usize,
    plan: &mut Plan,
) -> Answer<()>
    ensures value { result ≡ first_of (checks (lent submission.now operator.now map.now first size)) tt }
    ensures plan_after { plan.new ≡ plan_given (decision_of (lent submission.now operator.now map.now first size)) }
{
    *plan = Plan::none();
    let mut layout = Layout::default();
    answer::read_into(&mut layout, || submission::parse(submission))?;
    command_line::check_operator(operator)?;
    let window = board::window::check_window(first, size)?;
    let mut board = Board {
        map: MemoryMap::default(),
        window,
    };
    answer::read_into(&mut board.map, || memory_map::parse(map))?;
    let mut kernel = kernel::no_kernel();
    let image = submission::bytes_of(submission, layout.image);
    answer::read_into(&mut kernel, || image::judge(image))?;
    let line = command_line::in_force(operator, submission);
    let length = block::size::block_length(&layout, map.len(), line.len());
    place::decide_memory(&board, &kernel, &layout, length as u64, plan)
}
