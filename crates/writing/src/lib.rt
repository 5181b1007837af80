// Write and truncate on the bytes of the cache state, and the truncate rule on the sizes of one file.
//
// What is written goes into cached pages, and the bytes of the state are changed in place; the media stays.
#![tactic(auto)]

ghost use Rattle.std.specs.Prelude.{◌≡◌, cond, List, [], map, ◌+◌, ◌≤◌, ◌<◌, ◌^◌, ℕ, ◌/◌, ◌%◌, ◌-◌, max, length, get_or, set, leb, is_some, IfSome, SomeIff};
ghost use Rattle.answer.specs.Coded.{coded};
ghost use Rattle.memory.specs.Bytes.{zeros, part, overwrite};
ghost use Rattle.media.specs.Geometry.{files, file_bytes, media_bytes, page_bytes, pages_per_file};
ghost use Rattle.media.specs.Write.{media_of};
ghost use Rattle.scan.specs.Scan.{first_index};
ghost use Rattle.device.specs.declared.CacheState.{CacheState};
ghost use Rattle.device.specs.Device.{free_where, with_logical, with_slots, device_of, slot_count, frames_bytes, frame_start, is_free, used_slot, holds, is_cached};
ghost use Rattle.device.specs.Admission.{give};
ghost use Rattle.device.specs.Sound.{sizes_beside};
ghost use Rattle.device.specs.Sizes.{truncated_sizes, sizes_answer, sizes_after};
ghost use Rattle.device.specs.Writing.{has_slot, blank_page, cache_page, put_page, put_pages, write};
ghost use Rattle.device.specs.Truncating.{pages_from, clear_tail, with_sizes, truncate};
ghost use Rattle.state_bytes.specs.Encoding.{state_bytes, decode};
ghost use Rattle.state_bytes.specs.InPlace.{on_bytes};
ghost use Rattle.admission.specs.Tables.{slot_table};
ghost use Rattle.state_bytes.specs.Moments.{borrowed_at_entry, borrowed_at_exit, decoded_at_entry, decoded_at_exit};
ghost use Rattle.writing.specs.Parts.{device_beside, SameParts};

use admission::SlotTable;
use answer::Refusal;
use device::{FileSizes, SLOTS, Slot};
use media::{PAGE_BYTES, PAGES_PER_FILE};
use state_bytes::STATE_BYTES;

// The length of the page frames.
const FRAMES_BYTES: usize = SLOTS * PAGE_BYTES;

// The bytes are laid over the page frames from `at` on, by blocks, for their speed.
fn patch_frames(frames: &mut [u8; FRAMES_BYTES], at: usize, bytes: &[u8])
    requires { at + length bytes.now ≤ frames_bytes }
    ensures { frames.new ≡ overwrite frames.old at bytes.now }
{
    memory::copy(&mut frames[at..at + bytes.len()], bytes);
}

// A page as it becomes cached: a blank one, overlaid with its current bytes, which are those below the floor.
fn filled_page(current: &[u8]) -> [u8; PAGE_BYTES]
    ensures { result ≡ overwrite blank_page 0 current.now }
{
    let mut page = [0; PAGE_BYTES];
    memory::copy(&mut page, current);
    page
}

// A page is laid into the frame of slot k, in halves, which are short enough that the compiler copies them without a call.
fn put_frame(frames: &mut [u8; FRAMES_BYTES], k: usize, page: &[u8; PAGE_BYTES])
    requires { k < slot_count }
    ensures { frames.new ≡ overwrite frames.old (frame_start k) page.now }
{
    let (front, back) = page.split_at(PAGE_BYTES / 2);
    patch_frames(frames, PAGE_BYTES * k, front);
    patch_frames(frames, PAGE_BYTES * k + front.len(), back);
}

// The page of the media from `from` on goes into the frame of slot k, with its first `count` bytes, those below the floor. Where that
// is all of them, or none, no page is made in between.
fn fill_frame(media: &[u8], frames: &mut [u8; FRAMES_BYTES], k: usize, from: usize, count: usize)
    requires { (k < slot_count) × (count ≤ page_bytes)
        × (from + page_bytes ≤ length media.now) × (length media.now < 2 ^ 32) }
    ensures { frames.new ≡ overwrite frames.old (frame_start k)
        (overwrite blank_page 0 (part media.now from count)) }
{
    match count {
        PAGE_BYTES => patch_frames(frames, PAGE_BYTES * k, &media[from..from + PAGE_BYTES]),
        0 => patch_frames(frames, PAGE_BYTES * k, &[0; PAGE_BYTES]),
        _ => put_frame(frames, k, &filled_page(&media[from..from + count])),
    }
}

// Slot k holds a page of a file.
fn use_slot(state: &mut [u8; STATE_BYTES], k: usize, file: usize, page: usize)
    requires { (file < 256) × (page < 256) }
    ensures { decode state.new
        ≡ with_slots (decode state.old) (set (decode state.old).slots k (used_slot file page)) }
{
    let slot = Slot {
        used: 1,
        file: file as u8,
        page: page as u8,
    };
    state_bytes::set_slot(state, k, slot);
}

// The parts of the device that a write works on. The media is a slice, since its length goes by the number of pages.
#[derive(Drop)]
struct Parts<'a> {
    media: &'a [u8],
    frames: &'a mut [u8; FRAMES_BYTES],
    state: &'a mut [u8; STATE_BYTES],
}

impl Parts<'_> {
    // A page becomes cached, in slot k, the first that is free.
    fn cache_page(&mut self, file: usize, page: usize, k: usize, pages: usize)
        requires { (file_bytes pages < 2 ^ 16) × (length self.old.media.now ≡ media_bytes pages)
            × (file < files) × (page < pages)
            × (k < slot_count) × (k ≡ first_index is_free (decode self.old.state.now).slots) }
        ensures same_parts { SameParts self.old self.new }
        ensures cached { (stored : List ℕ) → device_beside stored self.new
            ≡ cache_page pages file page (device_beside stored self.old) }
    {
        let at = PAGE_BYTES * page;
        let floor = state_bytes::floor_at(self.state, file) as usize;
        let count = PAGE_BYTES.min(floor.saturating_sub(at));
        fill_frame(
            self.media,
            self.frames,
            k,
            file * (PAGE_BYTES * pages) + at,
            count,
        );
        use_slot(self.state, k, file, page);
    }

    // The slot that a page is written in, told its slot so far: where it has none, it becomes cached. None where no slot is free.
    fn written_slot(
        &mut self,
        file: usize,
        page: usize,
        slot: Option<usize>,
        pages: usize,
    ) -> Option<usize>
        requires { (file_bytes pages < 2 ^ 16) × (length self.old.media.now ≡ media_bytes pages)
            × (file < files) × (page < pages)
            × (let k = first_index (holds file page) (decode self.old.state.now).slots in SomeIff slot (k < slot_count) k) }
        ensures same_parts { SameParts self.old self.new }
        ensures has_slot { is_some result
            ≡ has_slot (device_of (media_of [] []) [] (decode self.old.state.now)) file page }
        ensures slot { IfSome result (λ k. (k < slot_count)
            × (k ≡ first_index (holds file page) (decode self.new.state.now).slots)) }
        ensures cached { (stored : List ℕ) → device_beside stored self.new
            ≡ (let before = device_beside stored self.old in
            cond (is_some result) (cond (is_cached before file page) before (cache_page pages file page before)) before) }
    {
        if slot.is_some() {
            return slot;
        }
        let k = admission::first_free(self.state)?;
        self.cache_page(file, page, k, pages);
        Some(k)
    }

    // The pages of a write, ascending, until one has no slot. Each takes the piece that begins where the page before stopped. The
    // number of bytes put down comes back. The table has the slots at the start: a page that becomes cached takes no other's.
    fn put_pages(&mut self, table: &SlotTable, file: usize, position: usize, bytes: &[u8]) -> usize
        requires { (length self.old.media.now ≡ media_bytes pages_per_file) × (file < files)
            × (position + length bytes.now ≤ file_bytes pages_per_file)
            × (table.now.slots ≡ slot_table pages_per_file (decode self.old.state.now).slots) }
        ensures same_parts { SameParts self.old self.new }
        ensures put { (stored : List ℕ) → record { device = device_beside stored self.new; count = result }
            ≡ put_pages pages_per_file file pages_per_file position bytes.now (device_beside stored self.old) }
    {
        // The first piece ends where its page does, so no iterator over pieces of one length goes through them.
        let mut from = 0;
        while from < bytes.len() {
            let page = (position + from) / PAGE_BYTES;
            let offset = (position + from) % PAGE_BYTES;
            let to = from + (PAGE_BYTES - offset).min(bytes.len() - from);
            let slot = table.slot_of(file, page);
            let Some(k) = self.written_slot(file, page, slot, PAGES_PER_FILE) else {
                return from;
            };
            patch_frames(self.frames, PAGE_BYTES * k + offset, &bytes[from..to]);
            from = to;
        }
        from
    }
}

// The pages of a write, on the parts as they are borrowed. (Of a struct made of a call's results the check would not know what the parts
// become.)
fn put_bytes(
    media: &[u8],
    frames: &mut [u8; FRAMES_BYTES],
    state: &mut [u8; STATE_BYTES],
    table: &SlotTable,
    file: usize,
    position: usize,
    bytes: &[u8],
) -> usize
    requires { (length media.now ≡ media_bytes pages_per_file) × (file < files)
        × (position + length bytes.now ≤ file_bytes pages_per_file)
        × (table.now.slots ≡ slot_table pages_per_file (decode state.old).slots) }
    ensures { (stored : List ℕ) → record { device = decoded_at_exit media.now stored frames.new state.new; count = result }
        ≡ put_pages pages_per_file file pages_per_file position bytes.now (decoded_at_entry media.now stored frames.old state.old) }
{
    let mut parts = Parts {
        media,
        frames,
        state,
    };
    parts.put_pages(table, file, position, bytes)
}

// Whether position + n is at most the limit. No sum is made.
fn sum_fits(position: usize, n: usize, limit: usize) -> bool
    ensures { result ≡ leb (position + n) limit }
{
    n <= limit && position <= limit - n
}

// File `file` is at least n bytes long.
#[tactic(auto, using(state_bytes::proofs::InPlace::logical_changed, crate::proofs::Arrays::bytes_fit))]
fn grow(state: &mut [u8; STATE_BYTES], file: usize, n: usize)
    requires { (file < files) × (n < 2 ^ 32) }
    ensures { decode state.new
        ≡ with_logical (decode state.old) file (max (get_or (decode state.old).logical file 0) n) }
{
    let logical = state_bytes::logical_at(state, file);
    state_bytes::set_logical(state, file, logical.max(n as u32));
}

// Write: puts the bytes down page by page, ascending, until a page has no slot, and answers how many: fewer than asked where all
// slots were taken. NO ROOM where not even the first page has one.
pub fn write(
    media: &[u8],
    sizes: &[u32],
    frames: &mut [u8],
    state: &mut [u8],
    file: usize,
    position: usize,
    bytes: &[u8],
) -> Result<usize, Refusal>
    ensures { give (coded result) (borrowed_at_exit media.now sizes.now frames.new state.new)
        ≡ on_bytes (write pages_per_file file position bytes.now) (borrowed_at_entry media.now sizes.now frames.old state.old) }
{
    let in_range = sum_fits(position, bytes.len(), PAGE_BYTES * PAGES_PER_FILE);
    let mut table = SlotTable::none_cached();
    admission::admit(
        media.len(),
        sizes,
        frames.len(),
        state,
        file,
        in_range,
        &mut table,
    )?;
    if bytes.is_empty() {
        return Ok(0);
    }
    // What is admitted has the lengths of the arrays.
    let frames: &mut [u8; FRAMES_BYTES] = frames.as_mut_array().unwrap();
    let state: &mut [u8; STATE_BYTES] = state.as_mut_array().unwrap();
    let count = put_bytes(media, frames, state, &table, file, position, bytes);
    if count == 0 {
        return Err(Refusal::NoRoom);
    }
    grow(state, file, position + count);
    Ok(count)
}

// The truncate rule on the sizes of one file: the floor is the smallest so far.
fn truncated_sizes(s: FileSizes, n: u32) -> FileSizes
    ensures { result ≡ truncated_sizes n s }
{
    FileSizes {
        logical: n,
        floor: s.floor.min(n),
        ..s
    }
}

// The state after a truncate of a file to n bytes. It has no part in the stored size.
fn truncate_state(state: &mut [u8; STATE_BYTES], file: usize, n: usize)
    requires { (file < files) × (n < 2 ^ 32) }
    ensures { decode state.new
        ≡ with_sizes file (truncated_sizes n (sizes_beside [] (decode state.old) file))
        (with_slots (decode state.old) (map (free_where (pages_from file n)) (decode state.old).slots)) }
{
    // A slice: of what a call leaves in it the check knows that it is bytes.
    let state: &mut [u8] = state;
    let sizes = FileSizes {
        logical: state_bytes::logical_at(state, file),
        floor: state_bytes::floor_at(state, file),
        stored: 0,
    };
    let after = truncated_sizes(sizes, n as u32);
    admission::free_pages_from(state, file, n);
    state_bytes::set_logical(state, file, after.logical);
    state_bytes::set_floor(state, file, after.floor);
}

// The slot of the page that n falls inside; None where n begins a page: pages that begin at or past n are freed.
fn tail_slot(table: &SlotTable, file: usize, n: usize) -> Option<usize>
    requires { (file < files) × (n ≤ file_bytes pages_per_file) }
    ensures { (c : CacheState) → length c.slots ≡ slot_count → table.now.slots ≡ slot_table pages_per_file c.slots
        → (let k = first_index (holds file (n / page_bytes)) (map (free_where (pages_from file n)) c.slots) in
        SomeIff result (k < slot_count) k) }
{
    if n % PAGE_BYTES == 0 {
        return None;
    }
    table.slot_of(file, n / PAGE_BYTES)
}

// The page in slot k gets zeros from where n falls inside it on.
fn clear_tail(frames: &mut [u8; FRAMES_BYTES], k: usize, n: usize)
    requires { k < slot_count }
    ensures { frames.new
        ≡ overwrite frames.old (frame_start k + n % page_bytes) (zeros (page_bytes - n % page_bytes)) }
{
    let end = PAGE_BYTES * k + PAGE_BYTES;
    memory::clear(&mut frames[PAGE_BYTES * k + n % PAGE_BYTES..end]);
}

// Truncate: the file has n bytes after it: it is cut, or filled with zeros. The count is 0.
pub fn truncate(
    media: &[u8],
    sizes: &[u32],
    frames: &mut [u8],
    state: &mut [u8],
    file: usize,
    n: usize,
) -> Result<usize, Refusal>
    ensures { give (coded result) (borrowed_at_exit media.now sizes.now frames.new state.new)
        ≡ on_bytes (truncate pages_per_file file n) (borrowed_at_entry media.now sizes.now frames.old state.old) }
{
    let in_range = n <= PAGE_BYTES * PAGES_PER_FILE;
    let mut table = SlotTable::none_cached();
    admission::admit(
        media.len(),
        sizes,
        frames.len(),
        state,
        file,
        in_range,
        &mut table,
    )?;
    // What is admitted has the lengths of the arrays.
    let frames: &mut [u8; FRAMES_BYTES] = frames.as_mut_array().unwrap();
    let state: &mut [u8; STATE_BYTES] = state.as_mut_array().unwrap();
    truncate_state(state, file, n);
    let Some(k) = tail_slot(&table, file, n) else {
        return Ok(0);
    };
    clear_tail(frames, k, n);
    Ok(0)
}

// The answer of the truncate rule on the sizes of one file.
pub fn sizes_answer(s: FileSizes, n: usize, greatest: u32) -> Result<usize, Refusal>
    ensures { coded result ≡ sizes_answer greatest n s }
{
    let limit = greatest as usize;
    if !admission::in_order(s, limit) {
        return Err(Refusal::Books);
    }
    if n > limit {
        return Err(Refusal::Range);
    }
    Ok(0)
}

// The sizes of one file after the truncate rule: as they came where it refuses.
pub fn sizes_after(s: FileSizes, n: usize, greatest: u32) -> FileSizes
    ensures { result ≡ sizes_after greatest n s }
{
    match sizes_answer(s, n, greatest) {
        Ok(_) => truncated_sizes(s, n as u32),
        Err(_) => s,
    }
}

// The truncate rule on a record that is borrowed to be altered, told the greatest file size.
pub fn truncate_sizes(s: &mut FileSizes, n: usize, greatest: u32) -> Result<usize, Refusal>
    ensures { (coded result ≡ sizes_answer greatest n s.old)
        × (s.new ≡ sizes_after greatest n s.old) }
{
    let answer = sizes_answer(*s, n, greatest);
    *s = sizes_after(*s, n, greatest);
    answer
}
