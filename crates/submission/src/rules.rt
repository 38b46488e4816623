// The rules that a submission keeps.
ghost use Rattle.std.specs.Prelude.{◌≡◌, ◌≤◌};
ghost use Rattle.laws.specs.Tests.{all_from};
ghost use Rattle.submission.specs.Format.{module_count};
ghost use Rattle.submission.specs.Layout.{layout_of};
ghost use Rattle.submission.specs.Format.{max_modules};
ghost use Rattle.submission.specs.Rules.{is_submission, in_limits, entry_holds, string_holds, rules_hold};

use crate::read::TableEntry;
use crate::{Layout, MAX_LINE, MAX_STRING, PREFIX, bytes_of, read, scan};

// Whether the prefix is there, with the mark and version 1 or 2.
#[tactic(auto, using(crate::proofs::ScanLaws::mark_tested), unfolding(crate::specs::Rules::is_submission))]
pub(crate) fn is_submission(s: &[u8]) -> bool
    ensures { result ≡ is_submission s.now }
{
    PREFIX <= s.len() && s.starts_with(b"KSB") && matches!(read::version(s), 1..=2)
}

// Whether every other rule holds, for a submission with these parts.
pub(crate) fn rules_hold(s: &[u8], l: &Layout) -> bool
    requires { (l.now ≡ layout_of s.now) × (module_count s.now ≤ max_modules) }
    ensures { result ≡ rules_hold s.now }
{
    l.line.len <= MAX_LINE
        && entries_hold(s, l.count)
        && l.end == s.len()
        && !scan::has_zero(bytes_of(s, l.line))
        && strings_hold(s, l)
}

// Whether the entry of each module holds.
fn entries_hold(s: &[u8], count: usize) -> bool
    requires { count ≤ max_modules }
    ensures { result ≡ all_from (entry_holds s.now) 0 count }
{
    let version = read::version(s);
    (0..count).all(|i| in_limits(version, read::read_entry(s, i)))
}

// Whether a module has data, a string that is not too long, and no ceiling in version 1.
#[tactic(auto, unfolding(crate::specs::Rules::in_limits))]
fn in_limits(version: u16, entry: TableEntry) -> bool
    ensures { result ≡ in_limits version entry }
{
    1 <= entry.bytes && entry.string <= MAX_STRING && (version != 1 || entry.ceiling == 0)
}

// Whether no module's string holds a zero byte.
fn strings_hold(s: &[u8], l: &Layout) -> bool
    requires { (l.now ≡ layout_of s.now) × (module_count s.now ≤ max_modules) }
    ensures { result ≡ all_from (string_holds s.now) 0 (module_count s.now) }
{
    l.modules[..l.count]
        .iter()
        .all(|m| !scan::has_zero(bytes_of(s, m.string)))
}
