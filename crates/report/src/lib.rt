// The report on a plan: a line for each segment and module and one for the information block, or one for a refusal.
#![tactic(auto)]

ghost use Rattle.std.specs.Prelude.{◌++◌, ◌+◌, ◌*◌, ◌≤◌, ◌<◌, ◌^◌, length};
ghost use Rattle.submission.specs.Format.{max_modules};
ghost use Rattle.kernel.specs.Kernel.{max_segments};
ghost use Rattle.viertompu.specs.Joined.{joined};
ghost use Rattle.report.specs.Text.{Wrote};
ghost use Rattle.report.specs.Adds.{Adds};
ghost use Rattle.report.specs.Report.{max_line_text, max_report, line_text, refusal_text, segment_line, module_line, info_line, report_of};

use viertompu::{
    BLOCK_END, BLOCK_START, ENTRY, FALSE_HEADERS, FIRST_MODULE, FIRST_SEGMENT, ITEM, NUMBER, WORDS,
    WORDS_PER_MODULE, WORDS_PER_SEGMENT,
};

mod digits;
mod writer;

use writer::Writer;

// No report is longer.
pub const MAX_REPORT: usize = 1584;

// Writes the report on a plan from the text's first byte on.
pub fn write_report(text: &mut [u8], plan: &[u32; WORDS]) -> usize
    ensures wrote { Wrote text.old 0 (report_of plan.now) text.new result }
    ensures upper_bound { result ≤ max_report }
{
    let mut out = Writer { text, at: 0 };
    if plan[NUMBER] == 0 {
        write_load(&mut out, plan);
    } else {
        write_refusal(&mut out, plan[NUMBER], plan[ITEM]);
    }
    out.at
}

// Writes the lines of a load.
fn write_load(out: &mut Writer, plan: &[u32; WORDS])
    requires { out.old.at + max_report < 2 ^ 64 }
    ensures { Adds out.old (joined (segment_line plan.now) max_segments ++ joined (module_line plan.now) max_modules ++ info_line plan.now) out.new }
{
    write_segments(out, plan);
    write_modules(out, plan);
    write_line(out, b"info", &[plan[BLOCK_START], plan[BLOCK_END]]);
}

// Writes the number and the item of a refusal.
fn write_refusal(out: &mut Writer, number: u32, item: u32)
    requires { out.old.at + max_line_text < 2 ^ 64 }
    ensures { Adds out.old (refusal_text number item) out.new }
{
    out.bytes(b"refused ");
    out.decimal(number);
    out.bytes(b" ");
    out.decimal(item);
    out.bytes(b"\n");
}

// Writes a line for each segment; a place whose segment ends at 0 has none.
#[tactic(auto, using(crate::specs::ReportLaws::segments_short, crate::specs::AddsLaws::adds_nothing), unfolding(viertompu::specs::Joined::joined))]
fn write_segments(out: &mut Writer, plan: &[u32; WORDS])
    requires { out.old.at + max_line_text * max_segments < 2 ^ 64 }
    ensures { Adds out.old (joined (segment_line plan.now) max_segments) out.new }
{
    let (segments, _) = plan[FIRST_SEGMENT..FIRST_MODULE].as_chunks::<WORDS_PER_SEGMENT>();
    for &[start, load_end, end] in segments {
        if end != 0 {
            write_line(out, b"kernel", &[start, load_end, end, plan[ENTRY]]);
        }
    }
}

// Writes a line for each module with its index; a place whose module ends at 0 has none.
#[tactic(auto, using(crate::specs::ReportLaws::modules_short, crate::specs::TextLaws::decimal_short, crate::specs::AddsLaws::adds_nothing), unfolding(viertompu::specs::Joined::joined))]
fn write_modules(out: &mut Writer, plan: &[u32; WORDS])
    requires { out.old.at + max_line_text * max_modules < 2 ^ 64 }
    ensures { Adds out.old (joined (module_line plan.now) max_modules) out.new }
{
    let (modules, _) = plan[FIRST_MODULE..FALSE_HEADERS].as_chunks::<WORDS_PER_MODULE>();
    for (i, &[start, end]) in modules.iter().enumerate() {
        if end != 0 {
            out.bytes(b"module ");
            out.decimal(i as u32);
            out.fields(&[start, end]);
        }
    }
}

// Writes a line: a word, and numbers in hexadecimal digits.
fn write_line(out: &mut Writer, label: &[u8], fields: &[u32])
    requires { out.old.at + length label.now + 9 * length fields.now + 1 < 2 ^ 64 }
    ensures { Adds out.old (line_text label.now fields.now) out.new }
{
    out.bytes(label);
    out.fields(fields);
}

// Writes the bytes of a text.
pub fn write_text(text: &mut [u8], at: usize, s: &[u8]) -> usize
    requires { at + length s.now < 2 ^ 64 }
    ensures { Wrote text.old at s.now text.new result }
{
    buffer::write_bytes(text, at, s);
    at + s.len()
}
