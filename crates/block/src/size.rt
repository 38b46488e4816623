// How long the information block is, and where its parts stand.
ghost use Rattle.std.specs.Prelude.{◌≡◌, ◌≤◌, ◌<◌, ◌^◌};
ghost use Rattle.submission.specs.Format.{max_modules};
ghost use Rattle.block.specs.Block.{strings_offset, string_lengths, block_length};
ghost use Rattle.block.specs.Writing.{PartsStand};
ghost use Rattle.block.specs.TextSize.{text_size};

use submission::Layout;

// The bytes of the structure, of a module's entry, and of the loader's name with its zero.
pub(crate) const STRUCTURE: usize = 88;

pub(crate) const MODULE_ENTRY: usize = 16;

pub(crate) const NAME: usize = 8;

// Where the parts behind the modules' entries stand, counted from the block's first byte.
#[derive(Clone, Copy)]
pub struct Offsets {
    pub map: usize,
    pub name: usize,
    pub line: usize,
    pub strings: usize,
}

// The bytes of a text of n bytes with its zero; an empty text has none.
#[tactic(auto, using(crate::specs::TextLaws::size_none, crate::specs::TextLaws::size_some))]
pub(crate) fn text_size(n: usize) -> usize
    requires { text_size n < 2 ^ 64 }
    ensures { result ≡ text_size n }
{
    if n == 0 { 0 } else { n + 1 }
}

// Where the parts stand in a block with `count` modules, a map of `map_length` and a command line of `line_length` bytes.
pub(crate) fn part_offsets(count: usize, map_length: usize, line_length: usize) -> Offsets
    requires { strings_offset count map_length line_length < 2 ^ 64 }
    ensures { PartsStand count map_length line_length result }
{
    let map = STRUCTURE + MODULE_ENTRY * count;
    let name = map + map_length;
    let line = name + NAME;
    let strings = line + text_size(line_length);
    Offsets {
        map,
        name,
        line,
        strings,
    }
}

// The length of the block for the modules of a submission, a map of `map_length` and a command line of `line_length` bytes.
pub fn block_length(layout: &Layout, map_length: usize, line_length: usize) -> usize
    requires { (layout.now.count ≤ max_modules) × (block_length (string_lengths layout.now layout.now.count) map_length line_length < 2 ^ 64) }
    ensures { result ≡ block_length (string_lengths layout.now layout.now.count) map_length line_length }
{
    let o = part_offsets(layout.count, map_length, line_length);
    let mut size = o.strings;
    for m in &layout.modules[..layout.count] {
        size += text_size(m.string.len);
    }
    size
}
