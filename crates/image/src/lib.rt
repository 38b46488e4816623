// A Multiboot image: its header, and the kernel that it asks for by address fields or as an ELF image.
#![tactic(auto)]

ghost use Rattle.std.specs.Prelude.{◌≡◌, ◌^◌, ◌<◌, Some};
ghost use Rattle.laws.specs.Checks.{first_of};
ghost use Rattle.header.specs.Header.{header};
ghost use Rattle.header.specs.FalseHeader.{false_headers};
ghost use Rattle.kernel.specs.Judge.{with_entry};
ghost use Rattle.image.specs.Load.{flags_at, load_length, load_end};
ghost use Rattle.image.specs.Narrow.{Narrow};
ghost use Rattle.image.specs.Judged.{found_header, load_checks, kernel_for, fields_kernel, field_checks, kind_checks, kernel_of};
ghost use Rattle.image.specs.Judge.{judged};

use address::ImageOffset;
use answer::{Answer, Refusal};
use header::FLAGS;
use kernel::{FoundHeader, Kernel, MAX_SEGMENTS, Segment};
use load::AddressFields;

mod check;
mod load;

// The kernel that an image asks for, or the first refusal.
#[tactic(auto, using(crate::proofs::RefusalLaws::no_header))]
pub fn judge(image: &[u8]) -> Answer<Kernel>
    ensures { result ≡ judged image.now }
{
    let searched = header::find_header(image);
    let Some(at) = searched.header else {
        return Err(Refusal::NoHeader(searched.false_headers));
    };
    judge_header(image, at, searched.false_headers)
}

// The answer for an image whose header was found behind so many false ones.
#[tactic(auto, using(header::proofs::HeaderLaws::header_early, crate::proofs::RefusalLaws::unknown_request_lem, crate::proofs::RefusalLaws::undefined_bits_lem, crate::proofs::RefusalLaws::unknown_kind_lem, crate::proofs::RefusalLaws::kind_judged))]
fn judge_header(image: &[u8], at: ImageOffset, passed: u32) -> Answer<Kernel>
    requires { (header image.now ≡ Some at) × (passed ≡ false_headers image.now) }
    ensures { result ≡ judged image.now }
{
    let flags = number::read_u32(image, at.0 + FLAGS);
    if check::unknown_request(flags) {
        return Err(Refusal::UnknownRequest);
    }
    if check::undefined_bits(flags) {
        return Err(Refusal::UndefinedBits);
    }
    if check::unknown_kind(image, flags) {
        return Err(Refusal::NoAddressFields);
    }
    judge_kind(image, at, passed, flags)
}

// The answer of the checks on address fields or on an ELF image, as the flags say, and of the one on the entry.
#[tactic(auto, using(crate::proofs::RefusalLaws::found_is, crate::proofs::RefusalLaws::by_elf, crate::proofs::RefusalLaws::by_address))]
fn judge_kind(image: &[u8], at: ImageOffset, passed: u32, flags: u32) -> Answer<Kernel>
    requires { (header image.now ≡ Some at) × (passed ≡ false_headers image.now) × (flags ≡ flags_at image.now at.0) }
    ensures { result ≡ with_entry (first_of (kind_checks image.now) tt) (kernel_of image.now) }
{
    let found = FoundHeader {
        offset: at,
        false_headers: passed,
        pages: load::on_pages(flags),
    };
    if check::no_addresses(flags) {
        return elf::judge(image, found);
    }
    judge_fields(image, found)
}

// The answer of the checks on the address fields of the header found, and of the one on the entry.
#[tactic(auto, using(crate::proofs::RefusalLaws::cut_off_lem, crate::proofs::RefusalLaws::before_image_lem, crate::proofs::RefusalLaws::load_left))]
fn judge_fields(image: &[u8], found: FoundHeader) -> Answer<Kernel>
    requires { (header image.now ≡ Some found.offset) × (found ≡ found_header image.now) }
    ensures { result ≡ with_entry (first_of (field_checks image.now) tt) (fields_kernel image.now) }
{
    let at = found.offset;
    if check::cut_off(at, image.len()) {
        return Err(Refusal::HeaderCutOff);
    }
    let h = load::read_fields(image, at.0);
    let Some(offset) = load::load_offset(h, at) else {
        return Err(Refusal::LoadBeforeImage);
    };
    judge_load(h, found, offset, image.len())
}

// The answer for an image of n bytes whose load begins at the offset, once its header is accepted.
#[tactic(auto, using(crate::proofs::RefusalLaws::length_fits, crate::proofs::RefusalLaws::one_few))]
fn judge_load(h: AddressFields, found: FoundHeader, offset: ImageOffset, n: usize) -> Answer<Kernel>
    requires { Narrow h × (offset.0 < n) × (n < 2 ^ 63) }
    ensures { result ≡ with_entry (first_of (load_checks h offset.0 (load_length h offset.0 n) n) tt) (kernel_for h found offset.0 (load_length h offset.0 n)) }
{
    let len = load::load_length(h, offset, n);
    let answer = check::check_load(h, offset, len, n);
    kernel::judge_entry(answer, &kernel_for(h, found, offset, len))
}

// The kernel of the header found, with `len` bytes to load from the offset.
#[tactic(auto, unfolding(crate::specs::Judged::kernel_for, kernel::specs::Kernel::kernel_with))]
fn kernel_for(h: AddressFields, found: FoundHeader, offset: ImageOffset, len: usize) -> Kernel
    requires { load_end h len < 2 ^ 64 }
    ensures { result ≡ kernel_for h found offset.0 len }
{
    let start = h.load_addr;
    let load_end = load::load_end(h, len);
    let extent_end = load::extent_end(h, load_end);
    let mut segments = [kernel::no_segment(); MAX_SEGMENTS];
    segments[0] = Segment {
        start,
        load_end,
        extent_end,
        offset,
    };
    let header = found.offset;
    let entry = h.entry_addr;
    Kernel {
        header,
        false_headers: found.false_headers,
        pages: found.pages,
        entry,
        segments,
        count: 1,
    }
}
