// A text that is being written, and numbers in it.
ghost use Rattle.std.specs.Prelude.{◌+◌, ◌*◌, ◌<◌, ◌^◌, length};
ghost use Rattle.report.specs.Text.{decimal_length, decimal_text, field_text, fields_text};
ghost use Rattle.report.specs.Adds.{Adds};

use crate::{digits, write_text};

// How many digits an address has, and how many decimal digits a word has at most.
const HEX: usize = 8;

const DECIMAL: usize = 10;

// The buffer, and the offset behind what is written. Numbers are not written by `write!`: it promises its text only where it gives
// `Ok`, and `write_report` promises the report always.
#[derive(Drop)]
pub(crate) struct Writer<'a> {
    pub(crate) text: &'a mut [u8],
    pub(crate) at: usize,
}

impl Writer<'_> {
    // Writes bytes.
    pub(crate) fn bytes(&mut self, s: &[u8])
        requires { self.old.at + length s.now < 2 ^ 64 }
        ensures { Adds self.old s.now self.new }
    {
        self.at = write_text(self.text, self.at, s);
    }

    // Writes a number in decimal digits, without zeros in front.
    pub(crate) fn decimal(&mut self, x: u32)
        requires { self.old.at + decimal_length < 2 ^ 64 }
        ensures { Adds self.old (decimal_text x) self.new }
    {
        let list: [u8; DECIMAL] = digits::spell(x, 10);
        let from = digits::leading(&list[..DECIMAL - 1]);
        self.bytes(&list[from..]);
    }

    // Writes the numbers, each behind a blank in eight hexadecimal digits, and ends the line.
    #[tactic(auto, using(crate::specs::AddsLaws::adds_nothing), unfolding(viertompu::specs::Joined::joined))]
    pub(crate) fn fields(&mut self, fields: &[u32])
        requires { self.old.at + 9 * length fields.now + 1 < 2 ^ 64 }
        ensures { Adds self.old (fields_text fields.now) self.new }
    {
        for field in fields {
            self.field(*field);
        }
        self.bytes(b"\n");
    }

    // Writes a blank and a number in eight hexadecimal digits.
    fn field(&mut self, x: u32)
        requires { self.old.at + 9 < 2 ^ 64 }
        ensures { Adds self.old (field_text x) self.new }
    {
        let list: [u8; HEX] = digits::spell(x, 16);
        self.bytes(b" ");
        self.bytes(&list);
    }
}
