// The cache state as bytes in a borrowed buffer: written and read as a whole, and read and changed in place.
//
// specs/Encoding.antt has the layout. `encode` and `decode` are inverse: every state has its bytes, and every STATE_BYTES bytes are those
// of a state. What is read in place is what the decoded state has.
#![tactic(auto)]

ghost use Rattle.std.specs.Prelude.{◌≡◌, ◌+◌, ◌*◌, ◌≤◌, ◌<◌, ◌&&◌, cond, ltb, eqb, length, get_or};
ghost use Rattle.memory.specs.Bytes.{overwrite};
ghost use Rattle.media.specs.Geometry.{files};
ghost use Rattle.device.specs.Device.{slot_count, free_slot};
ghost use Rattle.state_bytes.specs.Encoding.{state_bytes, slots_start, logical_start, floor_start, slot_bytes, number_bytes, concat_map, encoded};
ghost use Rattle.state_bytes.specs.Encoding.{slot_in, slot_word, number_in, sizes_in, decode, slot_set, size_set, slots_zero};

use device::{CacheState, Slot};
use std::array;

// The length of the buffer.
pub const STATE_BYTES: usize = 137;

// Where the slots begin, three bytes each.
pub const SLOTS_START: usize = 1;

const LOGICAL_START: usize = 73;

const FLOOR_START: usize = 105;

type State = [u8; STATE_BYTES];

// The bytes are laid over the state from an index on. (For memory of any length it would be this line too.)
fn put(state: &mut State, at: usize, bytes: &[u8])
    requires { at + length bytes.now ≤ state_bytes }
    ensures { state.new ≡ overwrite state.old at bytes.now }
{
    state[at..at + bytes.len()].copy_from_slice(bytes);
}

fn slot_bytes(s: Slot) -> [u8; 3]
    ensures { result ≡ slot_bytes s }
{
    [s.used, s.file, s.page]
}

// Slot by slot, since a map of the slots goes through all their bytes one at a time.
fn put_slots(state: &mut State, slots: &[Slot; device::SLOTS])
    ensures { state.new ≡ overwrite state.old slots_start (concat_map slot_bytes slots.now) }
{
    for k in 0..device::SLOTS {
        put(state, SLOTS_START + 3 * k, &slot_bytes(slots[k]));
    }
}

// A number in four bytes, low byte first.
fn number_bytes(n: u32) -> [u8; 4]
    ensures { result ≡ number_bytes n }
{
    n.to_le_bytes()
}

// The buffer becomes the bytes of the state. One of another length stays as it is. Where the state is known, as the down state is, few
// moves are left of it, so it is inlined.
#[inline]
pub fn encode(cache: CacheState, state: &mut [u8])
    ensures { state.new ≡ encoded cache state.old }
{
    if let Some(state) = state.as_mut_array::<STATE_BYTES>() {
        state[0] = cache.mounted;
        put_slots(state, &cache.slots);
        put(
            state,
            LOGICAL_START,
            cache.logical.map(number_bytes).as_flattened(),
        );
        put(
            state,
            FLOOR_START,
            cache.floor.map(number_bytes).as_flattened(),
        );
    }
}

fn slot_in(state: &State, k: usize) -> Slot
    requires { k < slot_count }
    ensures { result ≡ slot_in state.now (slots_start + 3 * k) }
{
    let at = SLOTS_START + 3 * k;
    Slot {
        used: state[at],
        file: state[at + 1],
        page: state[at + 2],
    }
}

// The number in four bytes, low byte first.
fn number_in(state: &State, at: usize) -> u32
    requires { at + 4 ≤ state_bytes }
    ensures { result ≡ number_in state.now at }
{
    u32::from_le_bytes([state[at], state[at + 1], state[at + 2], state[at + 3]])
}

fn sizes_in(state: &State, at: usize) -> [u32; media::FILES]
    requires { at + 4 * files ≤ state_bytes }
    ensures { result ≡ sizes_in state.now at }
{
    array::from_fn(|f| number_in(state, at + 4 * f))
}

// The state that the bytes say. Bytes of another length say the down state.
pub fn decode(state: &[u8]) -> CacheState
    ensures { result ≡ decode state.now }
{
    let Ok(state) = <&State>::try_from(state) else {
        return device::down_state();
    };
    CacheState {
        mounted: state[0],
        slots: array::from_fn(|k| slot_in(state, k)),
        logical: sizes_in(state, LOGICAL_START),
        floor: sizes_in(state, FLOOR_START),
    }
}

// Slot k; a free one where there is no such slot.
pub fn slot_at(state: &[u8], k: usize) -> Slot
    ensures { result ≡ get_or (decode state.now).slots k free_slot }
{
    match <&State>::try_from(state) {
        Ok(state) if k < device::SLOTS => slot_in(state, k),
        _ => device::free_slot(),
    }
}

// Slot k as one number, the three low bytes of a word; 0 where there is no such slot.
pub fn slot_word(state: &[u8], k: usize) -> u32
    ensures { result ≡ slot_word (get_or (decode state.now).slots k free_slot) }
{
    match <&State>::try_from(state) {
        Ok(state) if k < device::SLOTS => number_in(state, SLOTS_START + 3 * k) % 16777216,
        _ => 0,
    }
}

// The size of a file among those that begin at an index, or 0 where there is none.
fn size_at(state: &[u8], at: usize, file: usize) -> u32
    requires { at + 4 * files ≤ state_bytes }
    ensures { result ≡ cond (eqb (length state.now) state_bytes && ltb file files) (number_in state.now (at + 4 * file)) 0 }
{
    match <&State>::try_from(state) {
        Ok(state) if file < media::FILES => number_in(state, at + 4 * file),
        _ => 0,
    }
}

// The logical size of a file, or 0 where there is none.
pub fn logical_at(state: &[u8], file: usize) -> u32
    ensures { result ≡ get_or (decode state.now).logical file 0 }
{
    size_at(state, LOGICAL_START, file)
}

// The floor of a file, or 0 where there is none.
pub fn floor_at(state: &[u8], file: usize) -> u32
    ensures { result ≡ get_or (decode state.now).floor file 0 }
{
    size_at(state, FLOOR_START, file)
}

// Slot k becomes another.
pub fn set_slot(state: &mut [u8], k: usize, s: Slot)
    ensures { state.new ≡ slot_set state.old k s }
{
    if let Some(state) = state.as_mut_array::<STATE_BYTES>() {
        if k < device::SLOTS {
            put(state, SLOTS_START + 3 * k, &slot_bytes(s));
        }
    }
}

// A size of a file among those that begin at an index becomes n.
fn set_size(state: &mut [u8], at: usize, file: usize, n: u32)
    requires { at + 4 * files ≤ state_bytes }
    ensures { state.new ≡ size_set at state.old file n }
{
    if let Some(state) = state.as_mut_array::<STATE_BYTES>() {
        if file < media::FILES {
            put(state, at + 4 * file, &number_bytes(n));
        }
    }
}

// The logical size of a file becomes n.
pub fn set_logical(state: &mut [u8], file: usize, n: u32)
    ensures { state.new ≡ size_set logical_start state.old file n }
{
    set_size(state, LOGICAL_START, file, n);
}

// The floor of a file becomes n.
pub fn set_floor(state: &mut [u8], file: usize, n: u32)
    ensures { state.new ≡ size_set floor_start state.old file n }
{
    set_size(state, FLOOR_START, file, n);
}

// Eight bytes as one number, low byte first.
fn word_in(state: &State, at: usize) -> u64
    requires { at + 8 ≤ state_bytes }
    ensures { result ≡ number_in state.now at + 4294967296 * number_in state.now (at + 4) }
{
    u64::from_le_bytes(array::from_fn(|i| state[at + i]))
}

// Whether the bytes of eight slots from slot k on are 0: all of them are free. False where there are not as many.
// By three words, since a scan of so few bytes takes twice the time. Where the first slots are taken, the first word tells.
pub fn eight_free(state: &[u8], k: usize) -> bool
    ensures { result ≡ slots_zero state.now k 8 }
{
    match <&State>::try_from(state) {
        Ok(state) if k <= device::SLOTS - 8 => {
            let at = SLOTS_START + 3 * k;
            word_in(state, at) == 0 && word_in(state, at + 8) == 0 && word_in(state, at + 16) == 0
        }
        _ => false,
    }
}

// Whether the bytes of all slots are 0. False where the bytes are not those of a state.
pub fn all_free(state: &[u8]) -> bool
    ensures { result ≡ slots_zero state.now 0 slot_count }
{
    state.len() == STATE_BYTES && scan::all_zero(&state[SLOTS_START..LOGICAL_START])
}
