// The search for a Multiboot header.
#![tactic(auto)]

ghost use Rattle.std.specs.Prelude.{◌≡◌, ◌+◌, ◌^◌, ◌<◌, ◌≤◌, min, length, ◌==◌};
ghost use Rattle.number.specs.Number.{number_at};
ghost use Rattle.header.specs.Header.{header_magic, search_limit, short_header, sum_is_zero};
ghost use Rattle.header.specs.FalseHeader.{searched};

use address::ImageOffset;

// A header begins with this number.
pub const HEADER_MAGIC: u32 = 0x1BADB002;

// A header lies wholly in so many bytes from the image's start.
pub const SEARCH_LIMIT: usize = 8192;

// A header stands at a multiple of this offset.
pub const STEP: usize = 4;

// Magic, flags and checksum.
pub const SHORT_HEADER: usize = 12;

// Where flags and checksum stand in a header.
pub const FLAGS: usize = 4;

pub const CHECKSUM: usize = 8;

// What the search answers: the header, if there is one, and how many false headers it passed over.
#[derive(Clone, Copy)]
pub struct Searched {
    pub header: Option<ImageOffset>,
    pub false_headers: u32,
}

// Whether the magic stands at the offset `at`.
pub fn has_magic(s: &[u8], at: usize) -> bool
    ensures { result ≡ (number_at 4 s.now at == header_magic) }
{
    number::read_u32(s, at) == HEADER_MAGIC
}

// Whether magic, flags and checksum at the offset `at`, summed modulo 2^32, give 0.
fn sums_to_zero(s: &[u8], at: usize) -> bool
    requires { at + short_header < 2 ^ 64 }
    ensures { result ≡ sum_is_zero (number_at 4 s.now at) (number_at 4 s.now (at + 4)) (number_at 4 s.now (at + 8)) }
{
    let magic = number::read_u32(s, at);
    let flags = number::read_u32(s, at + FLAGS);
    let checksum = number::read_u32(s, at + CHECKSUM);
    magic.wrapping_add(flags).wrapping_add(checksum) == 0
}

// The lowest header in the bytes of a searched part, and how many false headers stand below it.
#[tactic(auto, using(crate::proofs::TurnLaws::passed_start, crate::proofs::TurnLaws::passed_found, crate::proofs::TurnLaws::magic_cut, crate::proofs::TurnLaws::sum_cut, crate::proofs::TurnLaws::passed_all))]
fn first_header(s: &[u8]) -> Searched
    requires { length s.now ≤ search_limit }
    ensures { result ≡ searched s.now }
{
    let mut passed = 0;
    // At each of these places there is room for a header.
    for place in 0..s.len().saturating_sub(SHORT_HEADER - STEP) / STEP {
        let at = STEP * place;
        // The compiler knows this slice's length, and drops the tests of the reads.
        let bytes = &s[at..at + SHORT_HEADER];
        if has_magic(bytes, 0) {
            if sums_to_zero(bytes, 0) {
                return Searched {
                    header: Some(ImageOffset(at)),
                    false_headers: passed,
                };
            }
            passed += 1;
        }
    }
    Searched {
        header: None,
        false_headers: passed,
    }
}

// The header of an image: the lowest in its searched part; and how many false headers the search passed over.
#[tactic(auto, using(crate::proofs::FalseHeaderLaws::searched_cut))]
pub fn find_header(image: &[u8]) -> Searched
    ensures { result ≡ searched image.now }
{
    let end = searched_end(image.len());
    first_header(&image[..end])
}

// Where the searched part of an image of so many bytes ends.
pub fn searched_end(len: usize) -> usize
    ensures { result ≡ min len search_limit }
{
    len.min(SEARCH_LIMIT)
}
