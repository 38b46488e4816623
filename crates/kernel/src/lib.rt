// The kernel that an image asks for: a list of segments, whatever kind of image it stands in.
#![tactic(auto)]

ghost use Rattle.std.specs.Prelude.{◌≡◌, ◌≤◌, ◌<◌};
ghost use Rattle.kernel.specs.Kernel.{max_segments, no_segment, no_kernel};
ghost use Rattle.kernel.specs.Checks.{entry_outside, overlaps_earlier, extents_overlap};
ghost use Rattle.kernel.specs.Judge.{with_entry};

use address::{ImageOffset, PhysAddr, Span};
use answer::{Answer, Refusal};

// At most so many segments.
pub const MAX_SEGMENTS: usize = 16;

// A stretch of the kernel: the addresses from start up to the load end get the image's bytes from `offset` on, those from
// there up to the extent end zeros.
#[derive(Clone, Copy)]
pub struct Segment {
    pub start: PhysAddr,
    pub load_end: PhysAddr,
    pub extent_end: PhysAddr,
    pub offset: ImageOffset,
}

impl Segment {
    // Its addresses, zeros included.
    pub fn extent(self) -> Span
        ensures { result ≡ record { start = self.start; end = self.extent_end } }
    {
        Span {
            start: self.start,
            end: self.extent_end,
        }
    }

    // The addresses of its load bytes.
    fn loaded(self) -> Span
        ensures { result ≡ record { start = self.start; end = self.load_end } }
    {
        Span {
            start: self.start,
            end: self.load_end,
        }
    }
}

// The header found in an image of either kind: where it stands, how many false headers stand below it, and whether modules
// lie on pages.
#[derive(Clone, Copy)]
pub struct FoundHeader {
    pub offset: ImageOffset,
    pub false_headers: u32,
    pub pages: bool,
}

// What an image asks for: its header, whether modules lie on pages, the entry, and its segments; past the last segment the
// entries are zero.
#[derive(Clone, Copy)]
pub struct Kernel {
    pub header: ImageOffset,
    pub false_headers: u32,
    pub pages: bool,
    pub entry: PhysAddr,
    pub segments: [Segment; MAX_SEGMENTS],
    pub count: usize,
}

// A segment of zeros.
pub fn no_segment() -> Segment
    ensures { result ≡ no_segment }
{
    Segment {
        start: PhysAddr(0),
        load_end: PhysAddr(0),
        extent_end: PhysAddr(0),
        offset: ImageOffset(0),
    }
}

// A kernel of zeros.
pub fn no_kernel() -> Kernel
    ensures { result ≡ no_kernel }
{
    Kernel {
        header: ImageOffset(0),
        false_headers: 0,
        pages: false,
        entry: PhysAddr(0),
        segments: [no_segment(); MAX_SEGMENTS],
        count: 0,
    }
}

// Whether two extents share an address.
pub fn extents_overlap(kernel: &Kernel) -> bool
    requires { kernel.now.count ≤ max_segments }
    ensures { result ≡ extents_overlap kernel.now }
{
    (0..kernel.count).any(|j| overlaps_earlier(kernel, j))
}

// Whether an extent shares an address with one before it.
fn overlaps_earlier(kernel: &Kernel, j: usize) -> bool
    requires { j < max_segments }
    ensures { result ≡ overlaps_earlier kernel.now j }
{
    let later = kernel.segments[j].extent();
    kernel.segments[..j]
        .iter()
        .any(|earlier| earlier.extent().overlaps(later))
}

// Whether the entry lies in no segment's load bytes.
fn entry_outside(kernel: &Kernel) -> bool
    requires { kernel.now.count ≤ max_segments }
    ensures { result ≡ entry_outside kernel.now }
{
    !kernel.segments[..kernel.count]
        .iter()
        .any(|segment| segment.loaded().contains(kernel.entry))
}

// The kernel, if neither the checks so far nor the one on the entry refuses it.
#[tactic(auto, unfolding(crate::specs::Checks::entry_checks, laws::specs::Checks::first_of))]
pub fn judge_entry(answer: Answer<()>, kernel: &Kernel) -> Answer<Kernel>
    requires { kernel.now.count ≤ max_segments }
    ensures { result ≡ with_entry answer kernel.now }
{
    answer?;
    if entry_outside(kernel) {
        return Err(Refusal::EntryOutsideLoad);
    }
    Ok(*kernel)
}
