// A load, and its plan as words; a mend is in `mending`. The crate `viertompu_c` offers both to C.
#![tactic(auto)]

ghost use Rattle.std.specs.Prelude.{◌≡◌, length, Ok};
ghost use Rattle.std.specs.Result.{result_and};
ghost use Rattle.buffer.specs.Patched.{patched, zeros};
ghost use Rattle.answer.specs.Answer.{number_of};
ghost use Rattle.decision.specs.Decision.{decision_of};
ghost use Rattle.decision.specs.Lent.{lent};
ghost use Rattle.loader.specs.Memory.{memory_after};
ghost use Rattle.viertompu.specs.Words.{plan_size, first_segment, first_module, word_of, head_words, segments_words, modules_words, plan_words};

use address::Span;
use answer::Answer;
use decision::Plan;
use kernel::Kernel;
use submission::MAX_MODULES;

pub mod mending;

// How many words a plan has.
pub const WORDS: usize = 96;

// Where they stand.
pub const NUMBER: usize = 0;

pub const ITEM: usize = 1;

pub const HEADER: usize = 2;

pub const ENTRY: usize = 3;

pub const EAX: usize = 4;

pub const EBX: usize = 5;

pub const BLOCK_START: usize = 6;

pub const BLOCK_END: usize = 7;

// Segments, of three words each: start, load end, extent end.
pub const FIRST_SEGMENT: usize = 8;

pub const WORDS_PER_SEGMENT: usize = 3;

// Modules, of two words each: start, end.
pub const FIRST_MODULE: usize = 56;

pub const WORDS_PER_MODULE: usize = 2;

// How many false headers stand below the header.
pub const FALSE_HEADERS: usize = 88;

// The words of 32 bits are the numbers below this.
const WORD_RANGE: u64 = 0x100000000;

// Loads a submission into the window, or refuses it and leaves the window alone; gives the number of the answer and writes
// the whole plan.
pub fn viertompu_load<'a>(
    submission: &'a [u8],
    operator: &'a [u8],
    map: &[u8],
    window: &mut [u8],
    first: u32,
    plan: &mut [u32; WORDS],
) -> u32
    ensures value { result ≡ number_of (decision_of (lent submission.now operator.now map.now first (length window.old))) }
    ensures plan_after { plan.new ≡ plan_words (decision_of (lent submission.now operator.now map.now first (length window.old))) }
    ensures window_after { window.new ≡ memory_after (lent submission.now operator.now map.now first (length window.old)) window.old }
{
    let mut of_load = Plan::none();
    let answer = loader::load(submission, operator, map, window, first, &mut of_load);
    write_plan(plan, answer, &of_load);
    answer::number(&answer)
}

// Writes all words of an answer: those of a load with its plan, or the number and the item of a refusal and zeros.
pub(crate) fn write_plan(plan: &mut [u32; WORDS], answer: Answer<()>, of_load: &Plan)
    ensures { plan.new ≡ plan_words (result_and answer (Ok of_load.now)) }
{
    *plan = [0; WORDS];
    match answer {
        Ok(()) => write_load(plan, of_load),
        Err(refusal) => {
            plan[NUMBER] = refusal.number();
            plan[ITEM] = refusal.item();
        }
    }
}

// Writes the words of a load over zeros.
fn write_load(plan: &mut [u32; WORDS], of_load: &Plan)
    requires { plan.old ≡ zeros plan_size }
    ensures { plan.new ≡ plan_words (Ok of_load.now) }
{
    write_head(plan, of_load);
    write_segments(plan, &of_load.kernel);
    write_modules(plan, &of_load.modules);
    plan[FALSE_HEADERS] = of_load.kernel.false_headers;
}

// Writes the words before the segments.
fn write_head(plan: &mut [u32; WORDS], of_load: &Plan)
    ensures { plan.new ≡ patched plan.old 0 (head_words (Ok of_load.now)) }
{
    plan[NUMBER] = 0;
    plan[ITEM] = 0;
    plan[HEADER] = word(of_load.kernel.header.0 as u64);
    plan[ENTRY] = word(of_load.kernel.entry.0);
    plan[EAX] = of_load.eax;
    plan[EBX] = of_load.ebx;
    plan[BLOCK_START] = word(of_load.block.start.0);
    plan[BLOCK_END] = word(of_load.block.end.0);
}

// Writes the words of the segments. Here and for the modules the loop is written out: one function over both tables would take a
// row's words from a closure and copy them in a loop of its own, which is longer.
fn write_segments(plan: &mut [u32; WORDS], kernel: &Kernel)
    ensures { plan.new ≡ patched plan.old first_segment (segments_words kernel.now) }
{
    for (i, segment) in kernel.segments.iter().enumerate() {
        let at = FIRST_SEGMENT + WORDS_PER_SEGMENT * i;
        plan[at] = word(segment.start.0);
        plan[at + 1] = word(segment.load_end.0);
        plan[at + 2] = word(segment.extent_end.0);
    }
}

// Writes the words of the modules.
fn write_modules(plan: &mut [u32; WORDS], modules: &[Span; MAX_MODULES])
    ensures { plan.new ≡ patched plan.old first_module (modules_words modules.now) }
{
    for (i, module) in modules.iter().enumerate() {
        let at = FIRST_MODULE + WORDS_PER_MODULE * i;
        plan[at] = word(module.start.0);
        plan[at + 1] = word(module.end.0);
    }
}

// An address or an offset as a word. In a load and in a mend each is below 2^32, so nothing is lost.
pub(crate) fn word(a: u64) -> u32
    ensures { result ≡ word_of a }
{
    (a % WORD_RANGE) as u32
}
