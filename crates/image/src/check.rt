// The checks on the header and on the load.
ghost use Rattle.std.specs.Prelude.{◌≡◌, not, ◌&&◌, ◌+◌, ◌^◌, ◌<◌, eqb, ltb};
ghost use Rattle.laws.specs.Checks.{first_of};
ghost use Rattle.image.specs.Load.{load_end};
ghost use Rattle.image.specs.Judged.{unknown_request, undefined_bits, no_addresses, unknown_kind, cut_off, past_image, bss_below, load_checks};

use crate::load;
use crate::load::AddressFields;
use address::{ImageOffset, PhysAddr};
use answer::{Answer, Refusal};

// Whether any of flag bits 2 to 15 is set.
pub(crate) fn unknown_request(flags: u32) -> bool
    ensures { result ≡ unknown_request flags }
{
    flags / 4 % 16384 != 0
}

// Whether any of flag bits 17 to 31 is set.
pub(crate) fn undefined_bits(flags: u32) -> bool
    ensures { result ≡ undefined_bits flags }
{
    flags / 131072 % 32768 != 0
}

// Whether flag bit 16 is clear.
pub(crate) fn no_addresses(flags: u32) -> bool
    ensures { result ≡ no_addresses flags }
{
    flags / 65536 % 2 == 0
}

// Whether flag bit 16 is clear, and the image does not begin with the ELF mark.
#[tactic(auto, unfolding(crate::specs::Judged::unknown_kind))]
pub(crate) fn unknown_kind(image: &[u8], flags: u32) -> bool
    ensures { result ≡ unknown_kind image.now flags }
{
    no_addresses(flags) && !elf::is_elf(image)
}

// Whether the address fields of a header run past the searched part, or past the image of n bytes.
pub(crate) fn cut_off(at: ImageOffset, n: usize) -> bool
    ensures { result ≡ cut_off at.0 n }
{
    header::SEARCH_LIMIT - load::FULL_HEADER < at.0 || n < at.0 + load::FULL_HEADER
}

// The first of checks 12 and 13 that refuses a load of `len` bytes from the offset, of an image of n bytes.
#[tactic(auto, unfolding(crate::specs::Judged::load_checks, laws::specs::Checks::first_of))]
pub(crate) fn check_load(h: AddressFields, offset: ImageOffset, len: usize, n: usize) -> Answer<()>
    requires { (offset.0 + len < 2 ^ 64) × (load_end h len < 2 ^ 64) }
    ensures { result ≡ first_of (load_checks h offset.0 len n) tt }
{
    let loaded = load::load_end(h, len);
    if past_image(h, offset, len, n) {
        return Err(Refusal::LoadPastImage);
    }
    if bss_below(h, loaded) {
        return Err(Refusal::BssBelowLoadEnd);
    }
    Ok(())
}

// Whether the load ends before it begins, or past the image.
fn past_image(h: AddressFields, offset: ImageOffset, len: usize, n: usize) -> bool
    requires { offset.0 + len < 2 ^ 64 }
    ensures { result ≡ past_image h offset.0 len n }
{
    ends_early(h) || n < offset.0 + len
}

// Whether load_end_addr is given and below load_addr.
fn ends_early(h: AddressFields) -> bool
    ensures { result ≡ not (eqb h.load_end_addr.0 0) && ltb h.load_end_addr.0 h.load_addr.0 }
{
    h.load_end_addr.0 != 0 && h.load_end_addr.0 < h.load_addr.0
}

// Whether bss_end_addr is given and below the load end.
fn bss_below(h: AddressFields, loaded: PhysAddr) -> bool
    ensures { result ≡ bss_below h loaded.0 }
{
    h.bss_end_addr.0 != 0 && h.bss_end_addr.0 < loaded.0
}
