// What every call on a file begins with, on the bytes of the cache state: the order of refusals, sound states, and the slot of each
// page. Beside it what calls do to the slots later: the first free one, pages that are freed, and the state that a mount leaves.
#![tactic(auto)]

ghost use Rattle.std.specs.Prelude.{◌≡◌, SomeIff, OnOk, OnErr, true, false, ◌&&◌, List, ◌++◌, ℕ, ◌+◌, ◌<◌, ◌≤◌, length, eqb, leb};
ghost use Rattle.answer.specs.Coded.{coded_test, done};
ghost use Rattle.answer.specs.Admission.{first_refusal};
ghost use Rattle.media.specs.Geometry.{files, file_bytes, pages_per_file};
ghost use Rattle.media.specs.Write.{media_of};
ghost use Rattle.scan.specs.Scan.{first_index, every, every_below};
ghost use Rattle.device.specs.Device.{slot_count, is_free, mounted_state};
ghost use Rattle.device.specs.Sizes.{in_order};
ghost use Rattle.device.specs.Sound.{sizes_beside, is_down, is_sound};
ghost use Rattle.state_bytes.specs.Encoding.{state_bytes, slots_in, decode};
ghost use Rattle.state_bytes.specs.InPlace.{borrowed, state_shape, borrowed_tests};
ghost use Rattle.admission.specs.Freeing.{is_from, freed_slots};
ghost use Rattle.admission.specs.Tables.{none_cached, slot_table, slot_for, slots_pass, Passed};
ghost use Rattle.device.specs.Admission.{media_shape, mounted_tests, state_tests, mount_tests, device_tests};

use answer::Refusal;
use device::{CacheState, FileSizes, SLOTS, Slot};
use media::{FILES, PAGE_BYTES, PAGES_PER_FILE};
use state_bytes::{SLOTS_START, STATE_BYTES};

// A slot for each page of each file.
pub const TABLE: usize = FILES * PAGES_PER_FILE;

// The greatest size of a file.
const FILE_BYTES: usize = PAGE_BYTES * PAGES_PER_FILE;

// The first free slot.
pub fn first_free(state: &[u8]) -> Option<usize>
    ensures { let k = first_index is_free (decode state.now).slots in SomeIff result (k < slot_count) k }
{
    (0..SLOTS).position(|k| state_bytes::slot_at(state, k).used == 0)
}

// Whether a slot holds a page of the file that begins at or past n.
fn is_from(s: Slot, file: usize, n: usize) -> bool
    ensures { result ≡ is_from file n s }
{
    s.used == 1 && usize::from(s.file) == file && n <= PAGE_BYTES * usize::from(s.page)
}

// Of eight slots from slot k on those that hold such a page are freed.
fn free_eight(state: &mut [u8], k: usize, file: usize, n: usize)
    requires { k + 8 ≤ slot_count }
    ensures { (bytes : List ℕ) → state.old ≡ freed_slots file n k bytes
        → state.new ≡ freed_slots file n (k + 8) bytes }
{
    for i in k..k + 8 {
        if is_from(state_bytes::slot_at(state, i), file, n) {
            state_bytes::set_slot(state, i, device::free_slot());
        }
    }
}

// The cached pages of a file that begin at or past n are freed. Eight free slots are passed over at a time.
pub fn free_pages_from(state: &mut [u8], file: usize, n: usize)
    ensures { state.new ≡ freed_slots file n slot_count state.old }
{
    for k in (0..SLOTS).step_by(8) {
        if !state_bytes::eight_free(state, k) {
            free_eight(state, k, file, n);
        }
    }
}

// The state right after a mount that found these stored sizes.
pub fn mounted_state(sizes: [u32; FILES]) -> CacheState
    ensures { result ≡ mounted_state sizes }
{
    CacheState {
        mounted: 1,
        slots: device::no_slots(),
        logical: sizes,
        floor: sizes,
    }
}

// Whether floor ≤ logical ≤ the greatest file size, and floor ≤ stored.
#[tactic(auto, unfolding(device::specs::Sizes::in_order))]
pub fn in_order(s: FileSizes, greatest: usize) -> bool
    ensures { result ≡ in_order greatest s }
{
    s.floor <= s.logical && s.logical as usize <= greatest && s.floor <= s.stored
}

fn slots_free(state: &[u8]) -> bool
    ensures { result ≡ every is_free (decode state.now).slots }
{
    (0..SLOTS).all(|k| state_bytes::slot_at(state, k).used == 0)
}

fn sizes_zero(state: &[u8]) -> bool
    ensures { result ≡ every (λ n. eqb n 0) (decode state.now).logical
        && every (λ n. eqb n 0) (decode state.now).floor }
{
    (0..FILES).all(|f| state_bytes::logical_at(state, f) == 0
        && state_bytes::floor_at(state, f) == 0)
}

#[tactic(auto, unfolding(device::specs::Sound::is_down))]
fn is_down(state: &[u8]) -> bool
    ensures { result ≡ is_down (decode state.now) }
{
    slots_free(state) && sizes_zero(state)
}

// Whether no stored size is above the greatest file size. The fold goes to the end, so that it becomes vector code.
fn sizes_fit(sizes: &[u32]) -> bool
    ensures { result ≡ every (λ n. leb n (file_bytes pages_per_file)) sizes.now }
{
    sizes
        .iter()
        .fold(true, |fit, &n| fit & (n as usize <= FILE_BYTES))
}

// SHAPE of the state and of the media, which has so many bytes: the refusals of a format.
#[tactic(auto, unfolding(state_bytes::specs::InPlace::state_shape, device::specs::Admission::media_shape))]
pub fn admit_format(media: usize, sizes: &[u32], state: &[u8]) -> Result<(), Refusal>
    ensures { (m : List ℕ) → length m ≡ media
        → coded_test result ≡ first_refusal (state_shape state.now
        ++ media_shape pages_per_file (media_of m sizes.now)) (done 0) }
{
    if state.len() != STATE_BYTES || media != FILES * FILE_BYTES || sizes.len() != FILES {
        return Err(Refusal::Shape);
    }
    Ok(())
}

// SHAPE, then MEDIA: the refusals of a mount.
pub fn admit_mount(media: usize, sizes: &[u32], state: &[u8]) -> Result<(), Refusal>
    ensures { (m : List ℕ) → length m ≡ media
        → coded_test result ≡ first_refusal (state_shape state.now
        ++ mount_tests pages_per_file (media_of m sizes.now)) (done 0) }
{
    admit_format(media, sizes, state)?;
    if !sizes_fit(sizes) {
        return Err(Refusal::Media);
    }
    Ok(())
}

// SHAPE, of the page frames too, then MEDIA: the first tests of the calls on a file.
pub fn admit_device(media: usize, sizes: &[u32], frames: usize, state: &[u8]) -> Result<(), Refusal>
    ensures { (m f : List ℕ) → length m ≡ media → length f ≡ frames
        → coded_test result ≡ first_refusal (state_shape state.now
        ++ device_tests pages_per_file (media_of m sizes.now) f) (done 0) }
{
    if frames != SLOTS * PAGE_BYTES {
        return Err(Refusal::Shape);
    }
    admit_mount(media, sizes, state)
}

// The number that the bytes of a table have for a page; SLOTS where there is no such page. Any bytes are a table here, so the number may
// be above SLOTS, and no Option says it.
#[tactic(auto, unfolding(crate::specs::Tables::slot_for))]
pub fn slot_of(table: &[u8; TABLE], file: usize, page: usize) -> usize
    ensures { result ≡ slot_for pages_per_file table.now file page }
{
    if file < FILES && page < PAGES_PER_FILE {
        return usize::from(table[PAGES_PER_FILE * file + page]);
    }
    SLOTS
}

// The slot of each page of each file, a byte a page: page p of file f is at place PAGES_PER_FILE * f + p. SLOTS for a page that is not
// cached.
#[derive(Drop)]
pub struct SlotTable {
    pub slots: [u8; TABLE],
}

impl SlotTable {
    // No page is cached.
    #[tactic(auto, unfolding(crate::specs::Tables::none_cached))]
    pub fn none_cached() -> SlotTable
        ensures { result.slots ≡ none_cached }
    {
        SlotTable {
            slots: [SLOTS as u8; TABLE],
        }
    }

    // The slot of a page; none where it is not cached, or where there is no such page.
    pub fn slot_of(&self, file: usize, page: usize) -> Option<usize>
        ensures { let k = slot_for pages_per_file self.now.slots file page in SomeIff result (k < slot_count) k }
    {
        let k = slot_of(&self.slots, file, page);
        (k < SLOTS).then_some(k)
    }

    // Whether slot k names a page that there is and that no slot before it holds, whose place then gets k; or is free and carries 0
    // and 0. The table stays where it is lent, as in `admit`, so a truth value comes back and no table.
    fn enter_slot(&mut self, state: &[u8; STATE_BYTES], k: usize) -> bool
        requires { (k < slot_count) × Passed state.now self.old.slots k }
        ensures { (result ≡ true → Passed state.now self.new.slots (k + 1))
            × (result ≡ false → slots_pass state.now ≡ false) }
    {
        let at = SLOTS_START + 3 * k;
        if state[at] != 1 {
            return state_bytes::slot_word(state, k) == 0;
        }
        let file = usize::from(state[at + 1]);
        let page = usize::from(state[at + 2]);
        if file >= FILES || page >= PAGES_PER_FILE {
            return false;
        }
        let place = PAGES_PER_FILE * file + page;
        let seen = usize::from(self.slots[place]);
        self.slots[place] = k as u8;
        seen == SLOTS
    }

    // Eight slots from slot k on, in turn. (A truth value, as of `enter_slot`; so of the next two.)
    fn enter_eight(&mut self, state: &[u8; STATE_BYTES], k: usize) -> bool
        requires { (k + 8 ≤ slot_count) × Passed state.now self.old.slots k }
        ensures { (result ≡ true → Passed state.now self.new.slots (k + 8))
            × (result ≡ false → slots_pass state.now ≡ false) }
    {
        for i in k..k + 8 {
            if !self.enter_slot(state, i) {
                return false;
            }
        }
        true
    }

    // Whether the slots are sound. Then the table has the slot of each page, whatever it had. Free slots are passed over, all of them
    // or eight at a time.
    fn enter_slots(&mut self, state: &[u8; STATE_BYTES]) -> bool
        ensures { (result ≡ slots_pass state.now)
            × (result ≡ true → self.new.slots ≡ slot_table pages_per_file (slots_in state.now)) }
    {
        *self = SlotTable::none_cached();
        if state_bytes::all_free(state) {
            return true;
        }
        for k in (0..SLOTS).step_by(8) {
            if !state_bytes::eight_free(state, k) && !self.enter_eight(state, k) {
                return false;
            }
        }
        true
    }
}

// Whether the sizes of each file are in order. The loop goes to the end, so that it becomes vector code.
fn files_in_order(sizes: &[u32; FILES], state: &[u8; STATE_BYTES]) -> bool
    ensures { result ≡ every_below files (λ f. in_order (file_bytes pages_per_file)
        (sizes_beside sizes.now (decode state.now) f)) }
{
    let mut ordered = true;
    for (f, &stored) in sizes.iter().enumerate() {
        let s = FileSizes {
            logical: state_bytes::logical_at(state, f),
            floor: state_bytes::floor_at(state, f),
            stored,
        };
        ordered &= in_order(s, FILE_BYTES);
    }
    ordered
}

// Whether the bytes say a state that is sound beside the stored sizes. Then the table has its slots.
fn is_sound(sizes: &[u32; FILES], state: &[u8; STATE_BYTES], table: &mut SlotTable) -> bool
    ensures { (result ≡ is_sound pages_per_file sizes.now (decode state.now))
        × (result ≡ true → table.new.slots ≡ slot_table pages_per_file (decode state.now).slots) }
{
    if !files_in_order(sizes, state) || !table.enter_slots(state) {
        return false;
    }
    state[0] == 1 || state[0] == 0 && is_down(state)
}

// DOWN, NO FILE and RANGE.
fn admit_mounted(mounted: u8, file: usize, range: bool) -> Result<(), Refusal>
    ensures { coded_test result ≡ first_refusal (mounted_tests mounted file range) (done 0) }
{
    if mounted != 1 {
        return Err(Refusal::Down);
    }
    if file >= FILES {
        return Err(Refusal::NoFile);
    }
    if !range {
        return Err(Refusal::Range);
    }
    Ok(())
}

// BOOKS, DOWN, NO FILE and RANGE: their other tests, on the bytes of the state. Where they pass, the table has the slot of each
// page.
fn admit_state(
    sizes: &[u32; FILES],
    state: &[u8; STATE_BYTES],
    file: usize,
    range: bool,
    table: &mut SlotTable,
) -> Result<(), Refusal>
    ensures answer { coded_test result ≡ first_refusal (state_tests pages_per_file sizes.now
        (decode state.now) file range) (done 0) }
    ensures table { OnOk result (table.new.slots ≡ slot_table pages_per_file (decode state.now).slots) }
{
    if !is_sound(sizes, state, table) {
        return Err(Refusal::Books);
    }
    admit_mounted(state[0], file, range)
}

// The refusals of the calls on a file, in their order, as `admit` has them. Where one applies, the table may have some slots.
fn admit_file(
    media: usize,
    sizes: &[u32],
    frames: usize,
    state: &[u8],
    file: usize,
    range: bool,
    table: &mut SlotTable,
) -> Result<(), Refusal>
    ensures answer { (m f : List ℕ) → length m ≡ media → length f ≡ frames
        → coded_test result ≡ first_refusal (borrowed_tests pages_per_file
        (borrowed (media_of m sizes.now) f state.now) file range) (done 0) }
    ensures table { OnOk result (table.new.slots ≡ slot_table pages_per_file (decode state.now).slots) }
{
    admit_device(media, sizes, frames, state)?;
    // What passes has the lengths of the arrays.
    let Ok(sizes) = <&[u32; FILES]>::try_from(sizes) else {
        return Err(Refusal::Shape);
    };
    let Ok(state) = <&[u8; STATE_BYTES]>::try_from(state) else {
        return Err(Refusal::Shape);
    };
    admit_state(sizes, state, file, range, table)
}

// The refusals of the calls on a file, in their order. Of the media and the page frames only the lengths are looked at. Where no
// refusal applies, the table has the slot of each page.
// The caller lends the table: to return it is to copy its bytes twice, which takes longer than the tests of an empty read.
pub fn admit(
    media: usize,
    sizes: &[u32],
    frames: usize,
    state: &[u8],
    file: usize,
    range: bool,
    table: &mut SlotTable,
) -> Result<(), Refusal>
    ensures answer { (m f : List ℕ) → length m ≡ media → length f ≡ frames
        → coded_test result ≡ first_refusal (borrowed_tests pages_per_file
        (borrowed (media_of m sizes.now) f state.now) file range) (done 0) }
    ensures table { OnOk result (table.new.slots ≡ slot_table pages_per_file (decode state.now).slots) }
    ensures none { OnErr result (table.new.slots ≡ none_cached) }
{
    let admitted = admit_file(media, sizes, frames, state, file, range, table);
    if admitted.is_err() {
        *table = SlotTable::none_cached();
    }
    admitted
}
