// The device: the media, page frames over it, and the cache state. Here are the types of its code, and the down state; specs/ has
// its calls as definitions, and proofs/ what follows from them.
//
// The page frames are borrowed beside the cache state, SLOTS × 256 bytes; slot k has the bytes from 256 × k on.
#![tactic(auto)]

ghost use Rattle.std.specs.Prelude.{◌≡◌};
ghost use Rattle.device.specs.Device.{free_slot, no_slots, down_state};

use answer::Refusal;

// At most this many pages are cached, over all files together.
pub const SLOTS: usize = 24;

// A slot of the cache: used or free, and the page that it holds. A free slot carries file 0 and page 0. Each field is a byte of the
// state, which may have any value, so `used` is no bool; nor is `mounted`.
#[derive(Clone, Copy, Debug, PartialEq, Eq)]
pub struct Slot {
    // 1 where it is used, 0 where it is free.
    pub used: u8,
    pub file: u8,
    pub page: u8,
}

// The cache state (document 01: the books). The sizes are two arrays, as in the definitions and in the bytes of the state.
#[derive(Clone, Copy, Debug, PartialEq, Eq)]
pub struct CacheState {
    // 1 where the device is mounted, 0 where it is down (the up mark).
    pub mounted: u8,
    pub slots: [Slot; SLOTS],
    // Of each file: its size as read and write see it (the live size).
    pub logical: [u32; media::FILES],
    // Of each file: the smallest of the stored size and of all truncates since the last sync or mount (the cut size).
    pub floor: [u32; media::FILES],
}

// The three sizes of one file.
#[derive(Clone, Copy, Debug, PartialEq, Eq)]
pub struct FileSizes {
    pub logical: u32,
    pub floor: u32,
    pub stored: u32,
}

// Where a part lies, in the numbers of the C interface: in the page frames where it is cached, else in the media, from an index on, so
// many bytes.
#[derive(Clone, Copy, Debug, PartialEq, Eq)]
pub struct Span {
    pub cached: bool,
    pub from: usize,
    pub count: usize,
}

// What a call returns: its answer, beside the cache state that it leaves.
#[derive(Clone, Copy, Debug, PartialEq, Eq)]
pub struct Outcome {
    pub answer: Result<usize, Refusal>,
    pub cache: CacheState,
}

pub fn free_slot() -> Slot
    ensures { result ≡ free_slot }
{
    Slot {
        used: 0,
        file: 0,
        page: 0,
    }
}

// All slots, free.
pub fn no_slots() -> [Slot; SLOTS]
    ensures { result ≡ no_slots }
{
    [free_slot(); SLOTS]
}

// The state while down.
pub fn down_state() -> CacheState
    ensures { result ≡ down_state }
{
    CacheState {
        mounted: 0,
        slots: no_slots(),
        logical: [0; media::FILES],
        floor: [0; media::FILES],
    }
}
