// The numbered answers of a load: 0, or the first check that refuses.
#![tactic(auto)]

ghost use Rattle.std.specs.Prelude.{◌≡◌, Ok, MatchResult, ⊤};
ghost use Rattle.std.specs.Result.{result_and};
ghost use Rattle.answer.specs.Answer.{refusal_number, refusal_item, number_of, item_of};

// What a check or a load answers: a value, or the first refusal that applies.
pub type Answer<T> = Result<T, Refusal>;

// The refusals in the order of checks.
#[derive(Clone, Copy, PartialEq, Eq)]
pub enum Refusal {
    // 1: the submission is under 12 bytes, or its mark or version is wrong
    NotASubmission,
    // 2: the submission breaks another rule of its format
    BadSubmission,
    // 3: the operator's line is over 255 bytes or holds a zero byte
    BadOperatorLine,
    // 4: the window's first address plus its length is above the top
    WindowPastTop,
    // 5: the map is empty, over 4,096 bytes, has over 32 pairs, or a pair has a size under 20 or runs past the map's end
    BadMemoryMap,
    // 6: the image has no header; the item is how many false headers it has
    NoHeader(u32),
    // 7: one of the header's flag bits 2 to 15 is set
    UnknownRequest,
    // 25: one of the header's flag bits 17 to 31 is set
    UndefinedBits,
    // 8: the header's flag bit 16 is clear, and the image does not begin with the ELF mark
    NoAddressFields,
    // 9: the 32 bytes of header and address fields do not lie inside both the image and its first 8,192 bytes
    HeaderCutOff,
    // 10: load_addr is above header_addr, or their difference is above the header's offset
    LoadBeforeImage,
    // 11 is not given
    // 12: load_end_addr is not 0 and below load_addr, or the load ends beyond the image
    LoadPastImage,
    // 13: bss_end_addr is not 0 and below the load end
    BssBelowLoadEnd,
    // 18: the ELF image is under 52 bytes, is not of class 1, data 1, type 2, machine 3 and entry size 32, has its table beyond the image or over 16 entries in it, or has no segment
    BadElf,
    // 19: a loadable program header has file bytes outside the image, or a file size above its memory size
    BadProgramHeader,
    // 20: two segments share an address
    SegmentsOverlap,
    // 14: the entry lies in no segment's load bytes
    EntryOutsideLoad,
    // 15: an address of the kernel's extents is not open
    KernelNotOpen,
    // 16: there is no room for a module; the item is its index, counted from 0
    NoRoomForModule(u32),
    // 17: there is no room for the information block
    NoRoomForBlock,
}

impl Refusal {
    // The number of a refusal.
    pub fn number(self) -> u32
        ensures { result ≡ refusal_number self }
    {
        match self {
            Refusal::NotASubmission => 1,
            Refusal::BadSubmission => 2,
            Refusal::BadOperatorLine => 3,
            Refusal::WindowPastTop => 4,
            Refusal::BadMemoryMap => 5,
            Refusal::NoHeader(_) => 6,
            Refusal::UnknownRequest => 7,
            Refusal::UndefinedBits => 25,
            Refusal::NoAddressFields => 8,
            Refusal::HeaderCutOff => 9,
            Refusal::LoadBeforeImage => 10,
            Refusal::LoadPastImage => 12,
            Refusal::BssBelowLoadEnd => 13,
            Refusal::BadElf => 18,
            Refusal::BadProgramHeader => 19,
            Refusal::SegmentsOverlap => 20,
            Refusal::EntryOutsideLoad => 14,
            Refusal::KernelNotOpen => 15,
            Refusal::NoRoomForModule(_) => 16,
            Refusal::NoRoomForBlock => 17,
        }
    }

    // The item of a refusal: how many false headers there are where there is no header, the module's index where one has no
    // room, else 0.
    pub fn item(self) -> u32
        ensures { result ≡ refusal_item self }
    {
        match self {
            Refusal::NoHeader(n) => n,
            Refusal::NoRoomForModule(i) => i,
            _ => 0,
        }
    }
}

// Puts the value that is read into the room for it, and gives a refusal. It is not inlined, so that the answer, which holds the value
// once more, is not on the caller's stack any longer.
#[inline(never)]
pub fn read_into<T: Copy, F: FnOnce() -> Answer<T>>(room: &mut T, read: F) -> Answer<()>
    requires { F.pre read }
    ensures value { (r : _) × F.post read r × (result_and result (Ok room.new) ≡ r) }
    ensures room_after { MatchResult result (λ _. ⊤) (λ _. room.new ≡ room.old) }
{
    *room = read()?;
    Ok(())
}

// The number of an answer: 0, or that of the refusal.
pub fn number<T>(answer: &Answer<T>) -> u32
    ensures { result ≡ number_of answer.now }
{
    match answer {
        Ok(_) => 0,
        Err(refusal) => refusal.number(),
    }
}

// The item of an answer: 0, or that of the refusal.
pub fn item<T>(answer: &Answer<T>) -> u32
    ensures { result ≡ item_of answer.now }
{
    match answer {
        Ok(_) => 0,
        Err(refusal) => refusal.item(),
    }
}
