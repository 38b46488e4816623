// A mend, and its answer as words.
ghost use Rattle.std.specs.Prelude.{◌≡◌};
ghost use Rattle.mend.specs.Mend.{mending_of, image_after, mend_number};
ghost use Rattle.viertompu.specs.MendWords.{mend_words};

use mend::Mending;

// How many words the answer of a mend has.
pub const MEND_WORDS: usize = 4;

// Where they stand.
pub const MENDED: usize = 0;

pub const MENDED_HEADER: usize = 1;

pub const OLD_CHECKSUM: usize = 2;

pub const NEW_CHECKSUM: usize = 3;

// Mends the checksum at the lowest magic of an image without a header; gives the number of the answer and writes all its words.
pub fn viertompu_mend(image: &mut [u8], report: &mut [u32; MEND_WORDS]) -> u32
    ensures value { result ≡ mend_number (mending_of image.old) }
    ensures report_after { report.new ≡ mend_words (mending_of image.old) }
    ensures image_after { image.new ≡ image_after image.old }
{
    let mending = mend::mend(image);
    write_mend(report, &mending);
    mend::number(&mending)
}

// Writes the words of an answer: zeros, where nothing was mended.
#[tactic(auto, unfolding(crate::specs::MendWords::mend_words))]
fn write_mend(report: &mut [u32; MEND_WORDS], mending: &Mending)
    ensures { report.new ≡ mend_words mending.now }
{
    *report = [0; MEND_WORDS];
    if let Ok(Some(change)) = mending {
        report[MENDED] = 1;
        report[MENDED_HEADER] = crate::word(change.offset.0 as u64);
        report[OLD_CHECKSUM] = change.old;
        report[NEW_CHECKSUM] = change.new;
    }
}
