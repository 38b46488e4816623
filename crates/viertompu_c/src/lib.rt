// The C interface: a load and a mend, as the library gives them. include/viertompu.h declares both for C.
#![tactic(auto)]

ghost use Rattle.std.specs.Prelude.{◌≡◌, length};
ghost use Rattle.answer.specs.Answer.{number_of};
ghost use Rattle.decision.specs.Decision.{decision_of};
ghost use Rattle.decision.specs.Lent.{lent};
ghost use Rattle.loader.specs.Memory.{memory_after};
ghost use Rattle.mend.specs.Mend.{mending_of, image_after, mend_number};
ghost use Rattle.viertompu.specs.Words.{plan_words};
ghost use Rattle.viertompu.specs.MendWords.{mend_words};

use viertompu::WORDS;
use viertompu::mending::MEND_WORDS;

// Loads a submission into the window, or refuses it and leaves the window alone; gives the number of the answer and writes
// the whole plan.
#[unsafe(no_mangle)]
pub extern "C" fn viertompu_load<'a>(
    submission: &'a [u8],
    operator: &'a [u8],
    map: &[u8],
    window: &mut [u8],
    first: u32,
    plan: &mut [u32; WORDS],
) -> u32
    ensures value { result ≡ number_of (decision_of (lent submission.now operator.now map.now first (length window.old))) }
    ensures plan_after { plan.new ≡ plan_words (decision_of (lent submission.now operator.now map.now first (length window.old))) }
    ensures window_after { window.new ≡ memory_after (lent submission.now operator.now map.now first (length window.old)) window.old }
{
    viertompu::viertompu_load(submission, operator, map, window, first, plan)
}

// Mends the checksum at the lowest magic of an image without a header; gives the number of the answer and writes all its words.
#[unsafe(no_mangle)]
pub extern "C" fn viertompu_mend(image: &mut [u8], report: &mut [u32; MEND_WORDS]) -> u32
    ensures value { result ≡ mend_number (mending_of image.old) }
    ensures report_after { report.new ≡ mend_words (mending_of image.old) }
    ensures image_after { image.new ≡ image_after image.old }
{
    viertompu::mending::viertompu_mend(image, report)
}
