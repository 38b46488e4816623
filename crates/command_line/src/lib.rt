// The operator's line, and the command line in force.
#![tactic(auto)]

ghost use Rattle.std.specs.Prelude.{◌≡◌};
ghost use Rattle.laws.specs.Checks.{first_of};
ghost use Rattle.command_line.specs.CommandLine.{operator_checks, command_line};

use answer::{Answer, Refusal};

// Check 3 of an operator's line.
#[tactic(auto, using(std::proofs::Common::tests), unfolding(crate::specs::CommandLine::operator_checks, laws::specs::Checks::first_of))]
pub fn check_operator(line: &[u8]) -> Answer<()>
    ensures { result ≡ first_of (operator_checks line.now) tt }
{
    if submission::MAX_LINE < line.len() || submission::scan::has_zero(line) {
        Err(Refusal::BadOperatorLine)
    } else {
        Ok(())
    }
}

// The command line in force, as a part of the operator's line or of the submission; empty where either is refused.
pub fn in_force<'a>(operator: &'a [u8], submission: &'a [u8]) -> &'a [u8]
    ensures { result.now ≡ command_line operator.now submission.now }
{
    let Ok(layout) = submission::parse(submission) else {
        return &[];
    };
    if check_operator(operator).is_err() {
        return &[];
    }
    if !operator.is_empty() {
        return operator;
    }
    submission::bytes_of(submission, layout.line)
}
