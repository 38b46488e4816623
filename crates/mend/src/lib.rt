// Mending a checksum: where an image has no header, the lowest magic in it gets the checksum that makes it one.
#![tactic(auto)]

ghost use Rattle.std.specs.Prelude.{◌≡◌, ◌+◌, ◌^◌, ◌<◌};
ghost use Rattle.header.specs.Header.{short_header};
ghost use Rattle.mend.specs.Mend.{lowest_magic, right_checksum, change_at, mending_of, image_after, mend_number};

use address::ImageOffset;
use header::{CHECKSUM, FLAGS, HEADER_MAGIC, SHORT_HEADER, STEP};

// A checksum that is mended: the header's offset, and the word before and after.
#[derive(Clone, Copy)]
pub struct Change {
    pub offset: ImageOffset,
    pub old: u32,
    pub new: u32,
}

// 26: the image has neither a header nor a false header
#[derive(Clone, Copy, PartialEq, Eq)]
pub struct NoMagic;

impl NoMagic {
    // The number of the refusal.
    pub const NUMBER: u32 = 26;
}

// What a mend answers: the change at the lowest magic, or none where the image has a header.
pub type Mending = Result<Option<Change>, NoMagic>;

// Mends the checksum at the lowest magic of an image without a header, and changes no other byte.
#[tactic(auto, using(crate::proofs::PromisesLaws::change_early), unfolding(crate::specs::Mend::image_after))]
pub fn mend(image: &mut [u8]) -> Mending
    ensures value { result ≡ mending_of image.old }
    ensures image_after { image.new ≡ image_after image.old }
{
    let mending = decide(image);
    if let Ok(Some(change)) = mending {
        number::write_u32(image, change.offset.0 + CHECKSUM, change.new);
    }
    mending
}

// The number of an answer: 0, or that of the refusal.
pub fn number(mending: &Mending) -> u32
    ensures { result ≡ mend_number mending.now }
{
    match mending {
        Ok(_) => 0,
        Err(NoMagic) => NoMagic::NUMBER,
    }
}

// What is to be changed in an image, if anything is.
#[tactic(auto, using(crate::proofs::MendLaws::magic_early), unfolding(crate::specs::Mend::mending_of))]
fn decide(image: &[u8]) -> Mending
    ensures { result ≡ mending_of image.now }
{
    if header::find_header(image).header.is_some() {
        return Ok(None);
    }
    let offset = lowest_magic(image).ok_or(NoMagic)?;
    Ok(Some(change_at(image, offset)))
}

// The lowest multiple of 4 at which the magic stands, with room for 12 bytes inside the searched part.
fn lowest_magic(image: &[u8]) -> Option<ImageOffset>
    ensures { result ≡ lowest_magic image.now }
{
    let end = header::searched_end(image.len());
    let place = image[..end]
        .windows(SHORT_HEADER)
        .step_by(STEP)
        .position(|bytes| header::has_magic(bytes, 0))?;
    Some(ImageOffset(STEP * place))
}

// The checksum at the magic at an offset, as it stands and as it has to be.
fn change_at(image: &[u8], offset: ImageOffset) -> Change
    requires { offset.0 + short_header < 2 ^ 64 }
    ensures { result ≡ change_at image.now offset }
{
    let flags = number::read_u32(image, offset.0 + FLAGS);
    let old = number::read_u32(image, offset.0 + CHECKSUM);
    let new = right_checksum(flags);
    Change { offset, old, new }
}

// The checksum with which magic and flags, summed modulo 2^32, give 0.
#[tactic(auto, unfolding(crate::specs::Mend::right_checksum))]
fn right_checksum(flags: u32) -> u32
    ensures { result ≡ right_checksum flags }
{
    HEADER_MAGIC.wrapping_add(flags).wrapping_neg()
}
