// The ELF header and the program headers of an image, in the standard's names.
ghost use Rattle.std.specs.Prelude.{◌≡◌, ◌+◌, ◌^◌, ◌<◌};
ghost use Rattle.number.specs.Number.{number_at};
ghost use Rattle.elf.specs.Elf.{program_header_no};
ghost use Rattle.elf.specs.Read.{HeaderRead, Narrow};
ghost use Rattle.elf.specs.Segments.{segment_of};

use address::{ImageOffset, PhysAddr};
use kernel::Segment;

// The fields of an ELF header that decide how it is loaded.
#[derive(Clone, Copy)]
pub struct ElfHeader {
    pub ei_class: u8,
    pub ei_data: u8,
    pub e_type: u16,
    pub e_machine: u16,
    // where the kernel is entered
    pub e_entry: PhysAddr,
    // where the table of program headers begins
    pub e_phoff: ImageOffset,
    // how many bytes each of them has
    pub e_phentsize: u16,
    // how many there are
    pub e_phnum: usize,
}

// The fields of a program header that decide how it is loaded.
#[derive(Clone, Copy)]
pub struct ProgramHeader {
    pub p_type: u32,
    // where its file bytes begin
    pub p_offset: ImageOffset,
    // where they go
    pub p_paddr: PhysAddr,
    // how many there are
    pub p_filesz: usize,
    // how many addresses it takes, file bytes and zeros
    pub p_memsz: usize,
}

impl ElfHeader {
    // How many bytes it has.
    pub(crate) const SIZE: usize = 52;

    // The ELF header of an image.
    #[tactic(auto, unfolding(crate::specs::Elf::elf_header))]
    pub(crate) fn read(image: &[u8]) -> ElfHeader
        ensures { HeaderRead image.now result }
    {
        ElfHeader {
            ei_class: number::read_u8(image, 4),
            ei_data: number::read_u8(image, 5),
            e_type: number::read_u16(image, 16),
            e_machine: number::read_u16(image, 18),
            e_entry: PhysAddr(word(image, 24) as u64),
            e_phoff: ImageOffset(word(image, 28)),
            e_phentsize: number::read_u16(image, 42),
            e_phnum: number::read_u16(image, 44) as usize,
        }
    }

    // The program header of an index.
    #[tactic(auto, unfolding(crate::specs::Elf::program_header_at))]
    pub(crate) fn program_header(self, image: &[u8], i: usize) -> ProgramHeader
        requires { HeaderRead image.now self × (i < 2 ^ 16) }
        ensures { (result ≡ program_header_no image.now i) × Narrow result }
    {
        let at = self.e_phoff.0 + ProgramHeader::SIZE * i;
        ProgramHeader {
            p_type: number::read_u32(image, at),
            p_offset: ImageOffset(word(image, at + 4)),
            p_paddr: PhysAddr(word(image, at + 12) as u64),
            p_filesz: word(image, at + 16),
            p_memsz: word(image, at + 20),
        }
    }
}

impl ProgramHeader {
    // How many bytes it has.
    pub(crate) const SIZE: usize = 32;

    // Its segment: file bytes first, zeros up to the memory size. No `From`, since it asks that the sums fit.
    pub(crate) fn segment(self) -> Segment
        requires { Narrow self }
        ensures { result ≡ segment_of self }
    {
        let start = self.p_paddr;
        Segment {
            start,
            load_end: PhysAddr(start.0 + self.p_filesz as u64),
            extent_end: PhysAddr(start.0 + self.p_memsz as u64),
            offset: self.p_offset,
        }
    }
}

// The number of four bytes at the offset `at`.
fn word(image: &[u8], at: usize) -> usize
    ensures { (result ≡ number_at 4 image.now at) × (result < 2 ^ 32) }
{
    number::read_u32(image, at) as usize
}
