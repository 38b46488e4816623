// Writing a load into the window, by its plan.
ghost use Rattle.std.specs.Prelude.{◌≡◌, false, ◌++◌, ◌+◌, ◌-◌, ◌≤◌, length};
ghost use Rattle.laws.specs.Table.{listed};
ghost use Rattle.memory_map.specs.Map.{bad_map};
ghost use Rattle.buffer.specs.Patched.{patched, zeros};
ghost use Rattle.buffer.specs.Writes.{written};
ghost use Rattle.submission.specs.Format.{max_modules};
ghost use Rattle.submission.specs.Layout.{bytes_of};
ghost use Rattle.command_line.specs.CommandLine.{command_line};
ghost use Rattle.block.specs.Block.{block_of};
ghost use Rattle.block.specs.Writing.{SpansLow, StringsIn, Room};
ghost use Rattle.kernel.specs.Kernel.{max_segments};
ghost use Rattle.decision.specs.Lent.{lent};
ghost use Rattle.loader.specs.Memory.{segment_write, module_write, contents_for, writes_of};
ghost use Rattle.loader.specs.Ready.{PlanOfLoad};

use address::{PhysAddr, Span};
use block::write::Block;
use decision::Plan;
use kernel::{Kernel, Segment};
use submission::{Layout, Part};

// Writes everything of a load: the kernel, the modules, and the information block.
pub(crate) fn write_load<'a>(
    window: &mut [u8],
    first: u32,
    submission: &'a [u8],
    operator: &'a [u8],
    map: &[u8],
    plan: &Plan,
)
    requires { PlanOfLoad (lent submission.now operator.now map.now first (length window.old)) plan.now }
    ensures { window.new ≡ written window.old (writes_of (lent submission.now operator.now map.now first (length window.old))) }
{
    let base = PhysAddr(first as u64);
    let layout = submission::parse(submission).unwrap();
    let image = submission::bytes_of(submission, layout.image);
    write_kernel(window, base, image, &plan.kernel);
    write_modules(window, base, submission, &layout, &plan.modules);
    let start = plan.block.start;
    write_block(
        window,
        base,
        submission,
        operator,
        map,
        &layout,
        &plan.modules,
        start,
    );
}

// Writes the information block, which stands from the address `start` on.
fn write_block<'a>(
    window: &mut [u8],
    base: PhysAddr,
    submission: &'a [u8],
    operator: &'a [u8],
    map: &[u8],
    layout: &Layout,
    modules: &[Span; submission::MAX_MODULES],
    start: PhysAddr,
)
    requires { (bad_map map.now ≡ false) × SpansLow layout.now modules.now × StringsIn submission.now layout.now × Room layout.now (length map.now) (length (command_line operator.now submission.now)) start.0 (start.0 - base.0) (length window.old) }
    ensures { window.new ≡ patched window.old (start.0 - base.0) (block_of (contents_for submission.now operator.now map.now layout.now modules.now start.0)) }
{
    let line = command_line::in_force(operator, submission);
    let pairs = memory_map::parse(map).unwrap();
    let block = Block {
        submission,
        layout,
        spans: modules,
        map,
        line,
        start,
        lower: usable::sizes::mem_lower(&pairs),
        upper: usable::sizes::mem_upper(&pairs),
    };
    block.write(window, start.offset_from(base));
}

// Writes the kernel's segments: their load bytes, and zeros over the bss.
fn write_kernel(window: &mut [u8], base: PhysAddr, image: &[u8], kernel: &Kernel)
    requires { kernel.now.count ≤ max_segments }
    ensures { window.new ≡ written window.old (listed (segment_write base.0 image.now kernel.now) kernel.now.count) }
{
    for segment in &kernel.segments[..kernel.count] {
        write_segment(window, base, image, segment);
    }
}

// Writes one segment.
fn write_segment(window: &mut [u8], base: PhysAddr, image: &[u8], segment: &Segment)
    ensures { window.new ≡ patched window.old (segment.now.start.0 - base.0) (bytes_of image.now (record { at = segment.now.offset.0; len = segment.now.load_end.0 - segment.now.start.0 }) ++ zeros (segment.now.extent_end.0 - segment.now.load_end.0)) }
{
    let part = Part {
        at: segment.offset.0,
        len: segment.load_end.offset_from(segment.start),
    };
    let bytes = submission::bytes_of(image, part);
    write_filled(
        window,
        segment.start.offset_from(base),
        bytes,
        segment.extent_end.offset_from(segment.load_end),
    );
}

// Writes bytes, and `count` zeros behind them.
#[tactic(auto, using(buffer::specs::PatchedLaws::patched_past, crate::proofs::TurnLaws::filled))]
fn write_filled(window: &mut [u8], at: usize, bytes: &[u8], count: usize)
    ensures { window.new ≡ patched window.old at (bytes.now ++ zeros count) }
{
    if window.len() <= at {
        return;
    }
    buffer::write_bytes(window, at, bytes);
    buffer::write_zeros(window, at + bytes.len(), count);
}

// Writes the modules' data.
fn write_modules(
    window: &mut [u8],
    base: PhysAddr,
    submission: &[u8],
    layout: &Layout,
    spans: &[Span; submission::MAX_MODULES],
)
    requires { layout.now.count ≤ max_modules }
    ensures { window.new ≡ written window.old (listed (module_write base.0 submission.now layout.now spans.now) layout.now.count) }
{
    for (module, span) in layout.modules[..layout.count].iter().zip(spans) {
        let data = submission::bytes_of(submission, module.data);
        buffer::write_bytes(window, span.start.offset_from(base), data);
    }
}
