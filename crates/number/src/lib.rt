// Little-endian numbers in lent bytes.
#![tactic(auto)]

ghost use Rattle.std.specs.Prelude.{◌≡◌, ◌+◌, ◌*◌, ◌^◌, ◌≤◌, ◌<◌, get_or};
ghost use Rattle.buffer.specs.Patched.{patched};
ghost use Rattle.number.specs.Number.{number_at, number_bytes, word_bytes};

// The number of `width` bytes at the offset `at`, lowest byte first; past the end of the bytes stand zeros.
#[tactic(auto, using(crate::proofs::TurnLaws::read_none, crate::proofs::TurnLaws::read_room, crate::proofs::TurnLaws::read_more, crate::proofs::TurnLaws::read_all))]
fn read_le(s: &[u8], at: usize, width: usize) -> u64
    requires { width ≤ 8 }
    ensures { (result ≡ number_at width s.now at) × (result < 2 ^ (8 * width)) }
{
    // A loop, since nothing bounds the sum in a fold.
    let mut value = 0;
    for place in (0..width).rev() {
        value = value * 256 + byte_at(s, at, place);
    }
    value
}

// The byte so many places behind the offset `at`, or 0 past the end.
fn byte_at(s: &[u8], at: usize, place: usize) -> u64
    ensures { (result ≡ get_or s.now (at + place) 0) × (result < 256) }
{
    s.get(at..)
        .and_then(|rest| rest.get(place))
        .map_or(0, |byte| u64::from(*byte))
}

// The four reads below share one body; a trait with the width as its constant needs an impl for each, which is longer than its call.

// The number of one byte at the offset `at`.
pub fn read_u8(s: &[u8], at: usize) -> u8
    ensures { result ≡ number_at 1 s.now at }
{
    read_le(s, at, 1) as u8
}

// The number of two bytes at the offset `at`.
pub fn read_u16(s: &[u8], at: usize) -> u16
    ensures { result ≡ number_at 2 s.now at }
{
    read_le(s, at, 2) as u16
}

// The number of four bytes at the offset `at`.
pub fn read_u32(s: &[u8], at: usize) -> u32
    ensures { result ≡ number_at 4 s.now at }
{
    read_le(s, at, 4) as u32
}

// The number of eight bytes at the offset `at`.
pub fn read_u64(s: &[u8], at: usize) -> u64
    ensures { result ≡ number_at 8 s.now at }
{
    read_le(s, at, 8)
}

// Writes x into dst at the offset `at`, lowest byte first; what would fall past the end is left out.
#[tactic(auto, unfolding(crate::specs::Number::number_bytes))]
pub fn write_u32(dst: &mut [u8], at: usize, x: u32)
    ensures { dst.new ≡ patched dst.old at (number_bytes 4 x) }
{
    buffer::write_bytes(dst, at, &x.to_le_bytes());
}

// Writes a row of words into dst from the offset `at` on, four bytes each; what would fall past the end is left out.
#[tactic(auto, using(buffer::specs::PatchedLaws::patched_past, crate::proofs::TurnLaws::write_none, crate::proofs::TurnLaws::write_more))]
pub fn write_words(dst: &mut [u8], at: usize, words: &[u32])
    ensures { dst.new ≡ patched dst.old at (word_bytes words.now) }
{
    if dst.len() <= at {
        return;
    }
    for (i, word) in words.iter().enumerate() {
        write_u32(dst, at + 4 * i, *word);
    }
}
