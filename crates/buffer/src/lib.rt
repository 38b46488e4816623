// Writing into a part of a lent buffer. A write is total: what would fall past the buffer's end is left out, and the
// length never changes.
#![tactic(auto)]

ghost use Rattle.std.specs.Prelude.{◌≡◌, ◌-◌, min, length};
ghost use Rattle.buffer.specs.Patched.{patched, zeros};

// Writes the bytes of src into dst from the offset `at` on.
#[tactic(auto, using(crate::proofs::PartLaws::none_written, crate::proofs::PartLaws::part_written))]
pub fn write_bytes(dst: &mut [u8], at: usize, src: &[u8])
    ensures { dst.new ≡ patched dst.old at src.now }
{
    let n = room(dst.len(), at, src.len());
    if 0 < n {
        copy(&src[..n], &mut dst[at..at + n]);
    }
}

// Writes `count` zeros into dst from the offset `at` on.
#[tactic(auto, using(crate::proofs::PartLaws::none_cleared, crate::proofs::PartLaws::part_cleared))]
pub fn write_zeros(dst: &mut [u8], at: usize, count: usize)
    ensures { dst.new ≡ patched dst.old at (zeros count) }
{
    let count = room(dst.len(), at, count);
    if 0 < count {
        dst[at..at + count].fill(0);
    }
}

// How many of `count` bytes from the offset `at` on lie inside a buffer of `len` bytes.
fn room(len: usize, at: usize, count: usize) -> usize
    ensures { result ≡ min count (len - at) }
{
    count.min(len.saturating_sub(at))
}

// Copies the bytes of src over those of dst. The library's copy calls memmove, and after a zip with `iter_mut` nothing is known of dst.
fn copy(src: &[u8], dst: &mut [u8])
    requires { length dst.old ≡ length src.now }
    ensures { dst.new ≡ src.now }
{
    for (i, d) in dst.iter_mut().enumerate() {
        *d = src[i];
    }
}
