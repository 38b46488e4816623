// An ELF image: the checks on its header and its table, and the kernel of its segments.
#![tactic(auto)]

ghost use Rattle.std.specs.Prelude.{◌≡◌, ◌≤◌};
ghost use Rattle.laws.specs.Tests.{any};
ghost use Rattle.laws.specs.Checks.{first_of};
ghost use Rattle.kernel.specs.Judge.{with_entry};
ghost use Rattle.kernel.specs.Kernel.{max_segments};
ghost use Rattle.elf.specs.Elf.{is_elf};
ghost use Rattle.elf.specs.Read.{HeaderRead, table_checks};
ghost use Rattle.elf.specs.Segments.{elf_kernel};
ghost use Rattle.elf.specs.Checks.{bad_no, elf_checks};

use answer::{Answer, Refusal};
use kernel::{FoundHeader, Kernel, MAX_SEGMENTS};
use read::ElfHeader;

mod check;
mod read;

// The bytes 7F 45 4C 46, as a number.
const MARK: u32 = 0x464C457F;

// Whether the image begins with the ELF mark.
pub fn is_elf(image: &[u8]) -> bool
    ensures { result ≡ is_elf image.now }
{
    number::read_u32(image, 0) == MARK
}

// The kernel of an ELF image with this Multiboot header, or the first of checks 18 to 20 and 14 that refuses it.
pub fn judge(image: &[u8], found: FoundHeader) -> Answer<Kernel>
    ensures { result ≡ with_entry (first_of (elf_checks image.now (elf_kernel image.now found)) tt) (elf_kernel image.now found) }
{
    let h = ElfHeader::read(image);
    if !h.well_formed(image.len()) {
        return Err(Refusal::BadElf);
    }
    let kernel = read_table(image, h, found);
    kernel::judge_entry(check_table(image, h, &kernel), &kernel)
}

// The kernel of the table's segments, in table order.
fn read_table(image: &[u8], h: ElfHeader, found: FoundHeader) -> Kernel
    requires { HeaderRead image.now h × (h.e_phnum ≤ max_segments) }
    ensures { (result ≡ elf_kernel image.now found) × (result.count ≤ max_segments) }
{
    let mut segments = [kernel::no_segment(); MAX_SEGMENTS];
    let mut count = 0;
    for i in 0..h.e_phnum {
        let p = h.program_header(image, i);
        if p.is_segment() {
            segments[count] = p.segment();
            count += 1;
        }
    }
    Kernel {
        header: found.offset,
        false_headers: found.false_headers,
        pages: found.pages,
        entry: h.e_entry,
        segments,
        count,
    }
}

// The first check that refuses the table with its kernel, where the header is well formed.
#[tactic(auto, unfolding(crate::specs::Read::table_checks, laws::specs::Checks::first_of))]
fn check_table(image: &[u8], h: ElfHeader, kernel: &Kernel) -> Answer<()>
    requires { HeaderRead image.now h × (kernel.now.count ≤ max_segments) }
    ensures { result ≡ first_of (table_checks kernel.now (any (bad_no image.now) h.e_phnum)) tt }
{
    if kernel.count == 0 {
        Err(Refusal::BadElf)
    } else if any_bad(image, h) {
        Err(Refusal::BadProgramHeader)
    } else if kernel::extents_overlap(kernel) {
        Err(Refusal::SegmentsOverlap)
    } else {
        Ok(())
    }
}

// Whether some program header is bad.
fn any_bad(image: &[u8], h: ElfHeader) -> bool
    requires { HeaderRead image.now h }
    ensures { result ≡ any (bad_no image.now) h.e_phnum }
{
    (0..h.e_phnum).any(|i| h.program_header(image, i).is_bad(image.len()))
}
