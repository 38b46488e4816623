// The load calculation: a header's address fields, and which bytes of the image go where.
ghost use Rattle.std.specs.Prelude.{◌≡◌, cond, ◌+◌, ◌-◌, ◌^◌, ◌<◌, max, Some, None};
ghost use Rattle.number.specs.Number.{number_at};
ghost use Rattle.image.specs.Load.{on_pages, fields_at, full_header, load_offset, load_length, load_end};
ghost use Rattle.image.specs.Narrow.{Narrow};
ghost use Rattle.image.specs.Judged.{before_image};

use address::{ImageOffset, PhysAddr};

// A header with its address fields.
pub(crate) const FULL_HEADER: usize = 32;

// The address fields of a header.
#[derive(Clone, Copy)]
pub struct AddressFields {
    // where the header goes
    pub header_addr: PhysAddr,
    // where the load begins
    pub load_addr: PhysAddr,
    // where it ends; 0 where all the image is loaded
    pub load_end_addr: PhysAddr,
    // where the bss ends; 0 where there is none
    pub bss_end_addr: PhysAddr,
    // where the kernel is entered
    pub entry_addr: PhysAddr,
}

// Whether the flags ask for page-aligned modules: bit 0.
pub(crate) fn on_pages(flags: u32) -> bool
    ensures { result ≡ on_pages flags }
{
    flags % 2 != 0
}

// The address that stands at the offset `at`.
fn read_address(image: &[u8], at: usize) -> PhysAddr
    ensures { (result ≡ record { 0 = number_at 4 image.now at }) × (result.0 < 2 ^ 32) }
{
    PhysAddr(number::read_u32(image, at) as u64)
}

// The address fields of the header at the offset `at`.
#[tactic(auto, unfolding(crate::specs::Load::fields_at))]
pub(crate) fn read_fields(image: &[u8], at: usize) -> AddressFields
    requires { at + full_header < 2 ^ 64 }
    ensures { (result ≡ fields_at image.now at) × Narrow result }
{
    AddressFields {
        header_addr: read_address(image, at + 12),
        load_addr: read_address(image, at + 16),
        load_end_addr: read_address(image, at + 20),
        bss_end_addr: read_address(image, at + 24),
        entry_addr: read_address(image, at + 28),
    }
}

// The load offset: as far before the header as load_addr is below header_addr, or nothing where that is before the image.
// No other function goes between addresses and offsets.
pub(crate) fn load_offset(h: AddressFields, header: ImageOffset) -> Option<ImageOffset>
    ensures { result ≡ cond (before_image h header.0) None (Some (record { 0 = load_offset h header.0 })) }
{
    let back = h.header_addr.0.checked_sub(h.load_addr.0)?;
    header.0.checked_sub(back as usize).map(ImageOffset)
}

// How many of the image's n bytes are loaded, from an offset inside it.
#[tactic(auto, unfolding(crate::specs::Load::load_length))]
pub(crate) fn load_length(h: AddressFields, offset: ImageOffset, n: usize) -> usize
    requires { offset.0 < n }
    ensures { result ≡ load_length h offset.0 n }
{
    if h.load_end_addr.0 == 0 {
        n - offset.0
    } else {
        h.load_end_addr.offset_from(h.load_addr)
    }
}

// Where the load ends.
pub(crate) fn load_end(h: AddressFields, len: usize) -> PhysAddr
    requires { load_end h len < 2 ^ 64 }
    ensures { result ≡ record { 0 = load_end h len } }
{
    PhysAddr(h.load_addr.0 + len as u64)
}

// Where the kernel's extent ends: at the load end, or behind the bss.
pub(crate) fn extent_end(h: AddressFields, loaded: PhysAddr) -> PhysAddr
    ensures { result ≡ record { 0 = max loaded.0 h.bss_end_addr.0 } }
{
    PhysAddr(loaded.0.max(h.bss_end_addr.0))
}
