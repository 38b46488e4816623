// The checks on an ELF header and its table.
ghost use Rattle.std.specs.Prelude.{◌≡◌};
ghost use Rattle.elf.specs.Read.{Narrow, Short};
ghost use Rattle.elf.specs.Segments.{is_segment};
ghost use Rattle.elf.specs.Checks.{right_kind, table_fits, well_formed, fits, bad_header};

use crate::read::{ElfHeader, ProgramHeader};
use kernel::MAX_SEGMENTS;

// The type of a loadable program header.
const PT_LOAD: u32 = 1;

impl ElfHeader {
    // Whether the header stands in an image of n bytes, is of the right kind, and its table fits.
    #[tactic(auto, unfolding(crate::specs::Checks::well_formed))]
    pub(crate) fn well_formed(self, n: usize) -> bool
        requires { Short self }
        ensures { result ≡ well_formed self n }
    {
        ElfHeader::SIZE <= n && self.right_kind() && self.table_fits(n)
    }

    // Whether it is a little-endian executable of 32 bits for the 80386, with program headers of 32 bytes.
    #[tactic(auto, unfolding(crate::specs::Checks::right_kind))]
    fn right_kind(self) -> bool
        ensures { result ≡ right_kind self }
    {
        self.ei_class == 1
            && self.ei_data == 1
            && self.e_type == 2
            && self.e_machine == 3
            && self.e_phentsize == 32
    }

    // Whether the table lies in an image of n bytes, and has no more entries than there may be segments.
    #[tactic(auto, unfolding(crate::specs::Checks::table_fits))]
    fn table_fits(self, n: usize) -> bool
        requires { Short self }
        ensures { result ≡ table_fits self n }
    {
        self.e_phoff.0 + ProgramHeader::SIZE * self.e_phnum <= n && self.e_phnum <= MAX_SEGMENTS
    }
}

impl ProgramHeader {
    // Whether it is a segment: loadable, and not empty in memory.
    #[tactic(auto, unfolding(crate::specs::Segments::is_segment))]
    pub(crate) fn is_segment(self) -> bool
        ensures { result ≡ is_segment self }
    {
        self.p_type == PT_LOAD && self.p_memsz != 0
    }

    // Whether it is loadable, but does not fit an image of n bytes or its own memory size.
    #[tactic(auto, unfolding(crate::specs::Checks::bad_header))]
    pub(crate) fn is_bad(self, n: usize) -> bool
        requires { Narrow self }
        ensures { result ≡ bad_header self n }
    {
        self.p_type == PT_LOAD && !self.fits(n)
    }

    // Whether the file bytes lie in an image of n bytes, and are no more than the memory size.
    #[tactic(auto, unfolding(crate::specs::Checks::fits))]
    fn fits(self, n: usize) -> bool
        requires { Narrow self }
        ensures { result ≡ fits self n }
    {
        self.p_filesz <= self.p_memsz
            && (self.p_filesz == 0 || self.p_offset.0 + self.p_filesz <= n)
    }
}
