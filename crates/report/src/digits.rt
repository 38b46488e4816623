// The digits of a number.
ghost use Rattle.std.specs.Prelude.{◌≡◌, ◌≤◌, ◌<◌, ◌==◌, length};
ghost use Rattle.std.specs.List.{prefix_len};
ghost use Rattle.report.specs.Text.{glyph_of, digits_of};

// How many zeros stand in front.
pub(crate) fn leading(digits: &[u8]) -> usize
    ensures value { result ≡ prefix_len (λ d. d == 48) digits.now }
    ensures within { result ≤ length digits.now }
{
    digits.iter().take_while(|d| **d == b'0').count()
}

// The last K digits of a number in a base, the highest first.
pub(crate) fn spell<const K: usize>(x: u32, base: u32) -> [u8; K]
    requires { (1 < base) × (base ≤ 16) }
    ensures { result ≡ digits_of base K x }
{
    let mut list = [0; K];
    let mut rest = x;
    // By index: of a list written through `iter_mut().rev()` the check knows the length alone.
    for i in (0..K).rev() {
        list[i] = glyph(rest % base);
        rest /= base;
    }
    list
}

// The character of a digit.
fn glyph(d: u32) -> u8
    requires { d < 16 }
    ensures { result ≡ glyph_of d }
{
    if d < 10 {
        b'0' + d as u8
    } else {
        b'A' + (d as u8 - 10)
    }
}
