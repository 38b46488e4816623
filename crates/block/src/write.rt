// Writing the information block into the window.
ghost use Rattle.std.specs.Prelude.{◌≡◌, ◌+◌, ◌*◌, ◌≤◌, ◌<◌, ◌^◌, length};
ghost use Rattle.number.specs.Number.{word_bytes};
ghost use Rattle.buffer.specs.Patched.{patched};
ghost use Rattle.block.specs.Block.{module_entry_size, flags_of, address_of, text_bytes, texts_size, strings_offset, structure_for, structure_words, entries, texts, block_of, string_lengths};
ghost use Rattle.block.specs.Writing.{entries_of, strings_of, SpansLow, StringsIn, says, Ready};

use crate::{Structure, size};
use address::{PhysAddr, Span};
use submission::Layout;

// The flags without a command line, and with one.
const PLAIN_FLAGS: u32 = 0x249;

const LINE_FLAGS: u32 = 0x24D;

// What the block of a load is written from: the submission and its parts, the modules' spans, the memory map, the command line,
// the block's own address, and the sizes of memory.
#[derive(Clone, Copy)]
pub struct Block<'a> {
    pub submission: &'a [u8],
    pub layout: &'a Layout,
    pub spans: &'a [Span; submission::MAX_MODULES],
    pub map: &'a [u8],
    pub line: &'a [u8],
    pub start: PhysAddr,
    pub lower: u32,
    pub upper: u32,
}

impl<'a> Block<'a> {
    // Writes the block into the window from the offset `at` on, as it stands from its address on.
    pub fn write(&self, window: &mut [u8], at: usize)
        requires { Ready self.now at (length window.old) }
        ensures { window.new ≡ patched window.old at (block_of (says self.now)) }
    {
        let o = size::part_offsets(self.layout.count, self.map.len(), self.line.len());
        let words = structure_words(self.structure());
        number::write_words(window, at, &words);
        self.write_entries(
            window,
            at + size::STRUCTURE,
            self.start.0 + o.strings as u64,
        );
        buffer::write_bytes(window, at + o.map, self.map);
        buffer::write_bytes(window, at + o.name, b"shelf 1\0");
        write_text(window, at + o.line, self.line);
        self.write_strings(window, at + o.strings);
    }

    // The structure at the block's front.
    fn structure(&self) -> Structure
        requires { self.now.start.0 + strings_offset self.now.layout.now.count (length self.now.map.now) (length self.now.line.now) ≤ 2 ^ 32 }
        ensures { result ≡ structure_for self.now.start.0 self.now.lower self.now.upper self.now.layout.now.count (length self.now.map.now) (length self.now.line.now) }
    {
        let count = self.layout.count;
        let map_length = self.map.len();
        let line_length = self.line.len();
        let o = size::part_offsets(count, map_length, line_length);
        Structure {
            flags: flags(line_length),
            mem_lower: self.lower,
            mem_upper: self.upper,
            cmdline: text_address(self.start.0 + o.line as u64, line_length),
            mods_count: count as u32,
            mods_addr: address_at(self.start, size::STRUCTURE),
            mmap_length: map_length as u32,
            mmap_addr: address_at(self.start, o.map),
            boot_loader_name: address_at(self.start, o.name),
        }
    }

    // Writes the modules' entries; their strings begin at the address `strings`.
    fn write_entries(&self, window: &mut [u8], at: usize, strings: u64)
        requires { SpansLow self.now.layout.now self.now.spans.now × (at + module_entry_size * self.now.layout.now.count < 2 ^ 64) × (strings + texts_size (string_lengths self.now.layout.now self.now.layout.now.count) ≤ 2 ^ 32) }
        ensures { window.new ≡ patched window.old at (word_bytes (entries strings (entries_of self.now.layout.now self.now.spans.now self.now.layout.now.count))) }
    {
        let mut next = strings;
        for (i, m) in self.layout.modules[..self.layout.count].iter().enumerate() {
            let n = m.string.len;
            let span = self.spans[i];
            let words = [
                span.start.0 as u32,
                span.end.0 as u32,
                text_address(next, n),
                0,
            ];
            number::write_words(window, at + size::MODULE_ENTRY * i, &words);
            next += size::text_size(n) as u64;
        }
    }

    // Writes the modules' strings, each with its zero.
    fn write_strings(&self, window: &mut [u8], at: usize)
        requires { StringsIn self.now.submission.now self.now.layout.now × (at + texts_size (string_lengths self.now.layout.now self.now.layout.now.count) < 2 ^ 64) }
        ensures { window.new ≡ patched window.old at (texts (strings_of self.now.submission.now self.now.layout.now self.now.layout.now.count)) }
    {
        let mut next = at;
        for m in &self.layout.modules[..self.layout.count] {
            let text = submission::bytes_of(self.submission, m.string);
            write_text(window, next, text);
            next += size::text_size(m.string.len);
        }
    }
}

// The flags of a structure with a command line of `line_length` bytes.
fn flags(line_length: usize) -> u32
    ensures { result ≡ flags_of line_length }
{
    if line_length == 0 {
        PLAIN_FLAGS
    } else {
        LINE_FLAGS
    }
}

// The address of an offset in the block.
fn address_at(start: PhysAddr, offset: usize) -> u32
    requires { start.0 + offset < 2 ^ 32 }
    ensures { result ≡ start.0 + offset }
{
    (start.0 + offset as u64) as u32
}

// The address a of a text of n bytes, or 0 where it is empty.
#[tactic(auto, using(crate::specs::TextLaws::address_none, crate::specs::TextLaws::address_some))]
fn text_address(a: u64, n: usize) -> u32
    requires { a + n ≤ 2 ^ 32 }
    ensures { result ≡ address_of a n }
{
    if n == 0 { 0 } else { a as u32 }
}

// The words of a structure.
#[tactic(auto, unfolding(crate::specs::Block::structure_words))]
fn structure_words(s: Structure) -> [u32; 22]
    ensures { result ≡ structure_words s }
{
    [
        s.flags,
        s.mem_lower,
        s.mem_upper,
        0,
        s.cmdline,
        s.mods_count,
        s.mods_addr,
        0,
        0,
        0,
        0,
        s.mmap_length,
        s.mmap_addr,
        0,
        0,
        0,
        s.boot_loader_name,
        0,
        0,
        0,
        0,
        0,
    ]
}

// Writes a text and its zero; an empty text leaves nothing.
fn write_text(window: &mut [u8], at: usize, text: &[u8])
    requires { at + length text.now < 2 ^ 64 }
    ensures { window.new ≡ patched window.old at (text_bytes text.now) }
{
    if !text.is_empty() {
        buffer::write_bytes(window, at, text);
        buffer::write_bytes(window, at + text.len(), b"\0");
    }
}
