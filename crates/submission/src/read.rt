// Where the parts of a submission lie.
ghost use Rattle.std.specs.Prelude.{◌≡◌, ◌+◌, ◌^◌, ◌≤◌, ◌<◌};
ghost use Rattle.submission.specs.Format.{version, module_count, entry_offset};
ghost use Rattle.submission.specs.Layout.{table_entry, module_from, ceiling_table, layout_of};
ghost use Rattle.submission.specs.Format.{max_modules};

use crate::{Layout, MAX_MODULES, Module, PREFIX, Part, TABLE_ENTRY};

// What the table says of a module: the lengths of its data and its string, and its ceiling in MiB.
#[derive(Clone, Copy)]
pub(crate) struct TableEntry {
    pub bytes: u32,
    pub string: u16,
    pub ceiling: u16,
}

// The version of the format.
pub(crate) fn version(s: &[u8]) -> u16
    ensures { result ≡ version s.now }
{
    number::read_u16(s, 3)
}

// How many modules the prefix announces.
pub(crate) fn module_count(s: &[u8]) -> usize
    ensures { (result ≡ module_count s.now) × (result < 2 ^ 8) }
{
    number::read_u8(s, 5) as usize
}

// Where the entry of module i begins, and behind the last entry the image.
fn entry_offset(i: usize) -> usize
    requires { entry_offset i < 2 ^ 64 }
    ensures { result ≡ entry_offset i }
{
    PREFIX + TABLE_ENTRY * i
}

// The entry of module i in the table.
pub(crate) fn read_entry(s: &[u8], i: usize) -> TableEntry
    requires { i < max_modules }
    ensures { result ≡ table_entry s.now i }
{
    let at = entry_offset(i);
    TableEntry {
        bytes: number::read_u32(s, at),
        string: number::read_u16(s, at + 4),
        ceiling: number::read_u16(s, at + 6),
    }
}

// The parts of a submission with `count` modules.
pub(crate) fn read_layout(s: &[u8], count: usize) -> Layout
    requires { (count ≡ module_count s.now) × (count ≤ max_modules) }
    ensures { result ≡ layout_of s.now }
{
    let image = Part {
        at: entry_offset(count),
        len: number::read_u32(s, 6) as usize,
    };
    let line = Part {
        at: image.at + image.len,
        len: number::read_u16(s, 10) as usize,
    };
    let mut modules = [Module::default(); MAX_MODULES];
    let mut at = line.at + line.len;
    for (i, module) in modules[..count].iter_mut().enumerate() {
        *module = module_from(at, read_entry(s, i));
        at = module.string.at + module.string.len;
    }
    Layout {
        image,
        line,
        modules,
        ceilings: read_ceilings(s, count),
        count,
        end: at,
    }
}

// The ceilings of `count` modules, zeros past the last.
fn read_ceilings(s: &[u8], count: usize) -> [u16; MAX_MODULES]
    requires { count ≤ max_modules }
    ensures { result ≡ ceiling_table s.now count }
{
    let mut list = [0; MAX_MODULES];
    for (i, ceiling) in list[..count].iter_mut().enumerate() {
        *ceiling = read_entry(s, i).ceiling;
    }
    list
}

// The parts of a module with its data from `at` on.
fn module_from(at: usize, entry: TableEntry) -> Module
    requires { at < 2 ^ 63 }
    ensures { (result ≡ module_from at entry) × (result.string.at + result.string.len < at + 2 ^ 33) }
{
    let data = Part {
        at,
        len: entry.bytes as usize,
    };
    let string = Part {
        at: at + data.len,
        len: entry.string as usize,
    };
    Module { data, string }
}
