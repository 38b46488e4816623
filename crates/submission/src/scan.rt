// Scans of lent bytes.
ghost use Rattle.std.specs.Prelude.{◌≡◌};
ghost use Rattle.submission.specs.Scan.{has_zero};

// Whether a byte is zero.
#[tactic(auto, using(crate::proofs::ScanLaws::zero_listed))]
pub fn has_zero(s: &[u8]) -> bool
    ensures { result ≡ has_zero s.now }
{
    s.contains(&0)
}
