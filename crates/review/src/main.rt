// Reviews a submission from standard input: loads it on a fixed board and prints where everything lies, or the refusal.
#![tactic(auto)]

ghost use Rattle.std.specs.Prelude.{◌≡◌, ◌≤◌, length, take, IfOk, IfSome};
ghost use Rattle.report.specs.Text.{Wrote};
ghost use Rattle.report.specs.Report.{max_report};
ghost use Rattle.review.specs.Review.{review_of, printed_for};

use std::io;
use std::io::{Read, Write};

// A longer input is not reviewed.
const MAX_INPUT: usize = 12288;

// One byte more is read, so that a longer input is seen.
const READ: usize = MAX_INPUT + 1;

// The board's memory map as words: two pairs of size 20, of usable memory, with 0x9FC00 bytes from 0 on and 0x700000 bytes
// from 0x100000 on.
const BOARD: [u32; 12] = [20, 0, 0, 0x9FC00, 0, 1, 20, 0x100000, 0, 0x700000, 0, 1];

// The map's length in bytes.
const MAP: usize = 48;

// The window's first address, and its length.
const FIRST: u32 = 0x100000;

const WINDOW: usize = 49152;

fn main(rt: HostRuntime) -> io::Result<()> {
    let mut input = [0; READ];
    let n = read_full(&mut rt.stdin(), &mut input)?;
    let mut text = [0; report::MAX_REPORT];
    let end = review(&input, n, &mut text);
    rt.stdout().write_all(&text[..end])
}

// Reads until the buffer is full or the input ends, and gives how many bytes were read. They stand at the buffer's start and are
// what the input begins with, as far as a clause can know its bytes. A `while`, since n counts bytes and no turns.
fn read_full<R: Read>(input: &mut R, buffer: &mut [u8]) -> io::Result<usize>
    ensures upper_bound { IfOk result (λ n. n ≤ length buffer.new) }
    ensures bytes { IfOk result (λ n. IfSome (R.remaining input.old) (λ xs. take n buffer.new ≡ take (length buffer.new) xs)) }
{
    let mut n = 0;
    while n < buffer.len() {
        let more = input.read(&mut buffer[n..])?;
        if more == 0 {
            return Ok(n);
        }
        n += more;
    }
    Ok(n)
}

// Writes what is printed for the n bytes that were read, and gives its length.
#[tactic(auto, using(crate::proofs::ReviewLaws::printed_over, crate::proofs::ReviewLaws::printed_within))]
fn review(input: &[u8; READ], n: usize, text: &mut [u8; report::MAX_REPORT]) -> usize
    ensures text_after { take result text.new ≡ printed_for (take n input.now) }
    ensures upper_bound { result ≤ length text.new }
{
    if MAX_INPUT < n {
        return report::write_text(text, 0, b"input over 12288 bytes\n");
    }
    report_on(&input[..n], text)
}

// Writes the report on a submission, and gives its length.
fn report_on(submission: &[u8], text: &mut [u8]) -> usize
    ensures wrote { Wrote text.old 0 (review_of submission.now) text.new result }
    ensures upper_bound { result ≤ max_report }
{
    let mut map = [0; MAP];
    number::write_words(&mut map, 0, &BOARD);
    let mut window = [0; WINDOW];
    let mut plan = [0; viertompu::WORDS];
    viertompu::viertompu_load(submission, b"", &map, &mut window, FIRST, &mut plan);
    report::write_report(text, &plan)
}
