// A submission in the KSB format: where its parts lie, and whether it keeps the format's rules.
#![tactic(auto)]

ghost use Rattle.std.specs.Prelude.{◌≡◌};
ghost use Rattle.submission.specs.Layout.{bytes_of};
ghost use Rattle.submission.specs.Parse.{parsed_submission};

use answer::{Answer, Refusal};

mod read;
mod rules;
pub mod scan;

// The size of the prefix, which stands before the table of modules.
pub(crate) const PREFIX: usize = 12;

// The size of a module's entry in the table behind the prefix.
pub(crate) const TABLE_ENTRY: usize = 8;

// At most so many modules.
pub const MAX_MODULES: usize = 16;

// At most so many bytes in a command line.
pub const MAX_LINE: usize = 255;

// At most so many bytes in a module's string.
pub(crate) const MAX_STRING: u16 = 127;

// A part of the submission, by its offset and length.
#[derive(Clone, Copy, Default)]
pub struct Part {
    pub at: usize,
    pub len: usize,
}

// The parts of one module.
#[derive(Clone, Copy, Default)]
pub struct Module {
    pub data: Part,
    pub string: Part,
}

// The parts of a submission, the ceilings of its modules in MiB, and where the last part ends; past the last module the entries
// are zero. The ceilings stand apart, since one table of modules with their ceilings takes 1,950 bytes of stack more.
#[derive(Clone, Copy, Default)]
pub struct Layout {
    pub image: Part,
    pub line: Part,
    pub modules: [Module; MAX_MODULES],
    pub ceilings: [u16; MAX_MODULES],
    pub count: usize,
    pub end: usize,
}

// The parts of a submission, or 1 or 2.
pub fn parse(s: &[u8]) -> Answer<Layout>
    ensures { result ≡ parsed_submission s.now }
{
    if !rules::is_submission(s) {
        return Err(Refusal::NotASubmission);
    }
    let count = read::module_count(s);
    if MAX_MODULES < count {
        return Err(Refusal::BadSubmission);
    }
    let layout = read::read_layout(s, count);
    if !rules::rules_hold(s, &layout) {
        return Err(Refusal::BadSubmission);
    }
    Ok(layout)
}

// The bytes of a part, cut where the slice ends.
pub fn bytes_of<'a>(s: &'a [u8], p: Part) -> &'a [u8]
    ensures { result.now ≡ bytes_of s.now p }
{
    let rest = s.get(p.at..).unwrap_or_default();
    rest.get(..p.len).unwrap_or(rest)
}
