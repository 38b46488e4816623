// Loading: the decision, and then, where no check refuses, the writing. A refusal leaves the window as it was.
#![tactic(auto)]

ghost use Rattle.std.specs.Prelude.{◌≡◌, length};
ghost use Rattle.decision.specs.Lent.{lent};
ghost use Rattle.laws.specs.Checks.{first_of};
ghost use Rattle.decision.specs.Decision.{checks, decision_of};
ghost use Rattle.decision.specs.Plan.{plan_given};
ghost use Rattle.loader.specs.Memory.{memory_after};

use answer::Answer;
use decision::Plan;

mod write;

// Loads a submission into the window, which stands for physical memory from the address `first` on, or refuses it; puts the plan of a
// load into `plan`, or zeros.
pub fn load<'a>(
    submission: &'a [u8],
    operator: &'a [u8],
    map: &[u8],
    window: &mut [u8],
    first: u32,
    plan: &mut Plan,
) -> Answer<()>
    ensures value { result ≡ first_of (checks (lent submission.now operator.now map.now first (length window.old))) tt }
    ensures plan_after { plan.new ≡ plan_given (decision_of (lent submission.now operator.now map.now first (length window.old))) }
    ensures window_after { window.new ≡ memory_after (lent submission.now operator.now map.now first (length window.old)) window.old }
{
    decision::decide(submission, operator, map, first, window.len(), plan)?;
    write::write_load(window, first, submission, operator, map, plan);
    Ok(())
}
