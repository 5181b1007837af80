// Read and look, on the bytes of the cache state: the calls that change nothing on the device.
#![tactic(auto)]

ghost use Rattle.std.specs.Prelude.{◌≡◌, OnOk, ◌+◌, ◌*◌, ◌≤◌, ◌<◌, ℕ, ◌/◌, ◌%◌, length, leb};
ghost use Rattle.answer.specs.Coded.{coded, coded_test, done};
ghost use Rattle.answer.specs.Admission.{first_refusal};
ghost use Rattle.media.specs.Geometry.{files, file_bytes, media_bytes, page_bytes, pages_per_file};
ghost use Rattle.device.specs.Device.{Device, slot_of, slot_count, frames_bytes};
ghost use Rattle.device.specs.Current.{current_bytes};
ghost use Rattle.device.specs.Admission.{give};
ghost use Rattle.device.specs.Looking.{to_page_end};
ghost use Rattle.state_bytes.specs.Encoding.{decode};
ghost use Rattle.state_bytes.specs.InPlace.{borrowed_tests, read_bytes, look_count_bytes, look_span_bytes};
ghost use Rattle.state_bytes.specs.Moments.{borrowed_at_entry};
ghost use Rattle.admission.specs.Tables.{slot_table, slot_for};

use admission::SlotTable;
use answer::Refusal;
use device::Span;
use media::{PAGE_BYTES, PAGES_PER_FILE};

// Where the current bytes of a file are: in the page frames of the pages that are cached, by the slots in the table; otherwise on the
// media below the floor, and 0 from there on.
#[derive(Clone, Copy)]
struct Source<'a> {
    media: &'a [u8],
    frames: &'a [u8],
    table: &'a SlotTable,
    file: usize,
    floor: usize,
    ghost whole_media: { length media.now ≡ media_bytes pages_per_file },
    ghost whole_frames: { length frames.now ≡ frames_bytes },
    ghost file_there: { file < files },
}

impl Source<'_> {
    ghost use Rattle.reading.specs.Source.{Shows};

    // The current bytes from `at` on, within one cached page, whose slot is k, fill the buffer.
    fn read_frame(&self, at: usize, k: usize, buffer: &mut [u8])
        requires { (k < slot_count) × (at % page_bytes + length buffer.old ≤ page_bytes) }
        ensures { (d : Device) → Shows self.now d → k ≡ slot_of d self.now.file (at / page_bytes)
            → buffer.new ≡ current_bytes pages_per_file d self.now.file at (length buffer.old) }
    {
        let first = PAGE_BYTES * k + at % PAGE_BYTES;
        buffer.copy_from_slice(&self.frames[first..first + buffer.len()]);
    }

    // The current bytes from `at` on, on pages none of which is cached, fill the buffer.
    fn read_stored(&self, at: usize, buffer: &mut [u8])
        requires { at + length buffer.old ≤ file_bytes pages_per_file }
        ensures { (d : Device) → Shows self.now d
            → ((p : ℕ) → at / page_bytes ≤ p → page_bytes * p < at + length buffer.old → slot_count ≤ slot_of d self.now.file p)
            → buffer.new ≡ current_bytes pages_per_file d self.now.file at (length buffer.old) }
    {
        let first = self.file * (PAGE_BYTES * PAGES_PER_FILE) + at;
        let stored = buffer.len().min(self.floor.saturating_sub(at));
        memory::copy_padded(buffer, &self.media[first..first + stored]);
    }

    // The first page from `page` on, below `end`, that is cached, or `end`.
    fn cached_from(&self, page: usize, end: usize) -> usize
        requires { page ≤ end }
        ensures within { (page ≤ result) × (result ≤ end) }
        ensures cached { result < end → slot_for pages_per_file self.now.table.now.slots self.now.file result < slot_count }
        ensures none_before { (p : ℕ) → page ≤ p → p < result → slot_count ≤ slot_for pages_per_file self.now.table.now.slots self.now.file p }
    {
        (page..end)
            .find(|&p| self.table.slot_of(self.file, p).is_some())
            .unwrap_or(end)
    }

    // The current bytes from a position on fill the buffer. Pages that are not cached and lie one behind the other are read in one
    // piece.
    fn read(&self, position: usize, buffer: &mut [u8])
        requires { position + length buffer.old ≤ file_bytes pages_per_file }
        ensures { (d : Device) → Shows self.now d → buffer.new ≡ current_bytes pages_per_file d self.now.file position (length buffer.old) }
    {
        let count = buffer.len();
        let mut i = 0;
        // A run of pages is of any length, so no iterator steps over the buffer.
        while i < count {
            let at = position + i;
            let page = at / PAGE_BYTES;
            match self.table.slot_of(self.file, page) {
                Some(k) => {
                    let to = count.min(PAGE_BYTES * (page + 1) - position);
                    self.read_frame(at, k, &mut buffer[i..to]);
                    i = to;
                }
                None => {
                    let end_page = (position + count).div_ceil(PAGE_BYTES);
                    let stop = self.cached_from(page + 1, end_page);
                    let to = count.min(PAGE_BYTES * stop - position);
                    self.read_stored(at, &mut buffer[i..to]);
                    i = to;
                }
            }
        }
    }
}

// The refusals of a call at a position of a file, in their order. Where none applies, the table has the slot of each page.
// It takes what a call takes: a struct of these would be made by each call for this function alone.
fn admit_at(
    media: &[u8],
    sizes: &[u32],
    frames: &[u8],
    state: &[u8],
    file: usize,
    position: usize,
    table: &mut SlotTable,
) -> Result<(), Refusal>
    ensures answer { coded_test result ≡ first_refusal (borrowed_tests pages_per_file (borrowed_at_entry media.now sizes.now frames.now state.now) file
        (leb position (file_bytes pages_per_file))) (done 0) }
    ensures table { OnOk result (table.new.slots ≡ slot_table pages_per_file (decode state.now).slots) }
{
    let in_range = position <= PAGE_BYTES * PAGES_PER_FILE;
    admission::admit(
        media.len(),
        sizes,
        frames.len(),
        state,
        file,
        in_range,
        table,
    )
}

// Read: copies as many current bytes as the buffer takes, up to the logical size, and answers their number. The rest of the
// buffer keeps its bytes.
pub fn read(
    media: &[u8],
    sizes: &[u32],
    frames: &[u8],
    state: &[u8],
    file: usize,
    position: usize,
    buffer: &mut [u8],
) -> Result<usize, Refusal>
    ensures { give (coded result) buffer.new
        ≡ read_bytes pages_per_file file position buffer.old (borrowed_at_entry media.now sizes.now frames.now state.now) }
{
    let mut table = SlotTable::none_cached();
    admit_at(media, sizes, frames, state, file, position, &mut table)?;
    let logical = state_bytes::logical_at(state, file) as usize;
    let floor = state_bytes::floor_at(state, file) as usize;
    let count = buffer.len().min(logical.saturating_sub(position));
    let source = Source {
        media,
        frames,
        table: &table,
        file,
        floor,
    };
    source.read(position, &mut buffer[..count]);
    Ok(count)
}

// From the position to the end of its page or to the limit, the nearer; 0 at or past the limit.
fn to_page_end(position: usize, limit: usize) -> usize
    ensures { result ≡ to_page_end position limit }
{
    (PAGE_BYTES - position % PAGE_BYTES).min(limit.saturating_sub(position))
}

// Where a look's part lies: in the page frames, or in the media where the page is not cached. It goes from the position to the end
// of its page, and no further than the logical size, or than the floor where the page is not cached. It is empty on a refusal, at
// or past the logical size, and in zeros that no buffer has: `look_count` tells which.
pub fn look_span(
    media: &[u8],
    sizes: &[u32],
    frames: &[u8],
    state: &[u8],
    file: usize,
    position: usize,
) -> Span
    ensures { result ≡ look_span_bytes pages_per_file file position (borrowed_at_entry media.now sizes.now frames.now state.now) }
{
    let mut table = SlotTable::none_cached();
    let Ok(()) = admit_at(media, sizes, frames, state, file, position, &mut table) else {
        return Span {
            cached: false,
            from: 0,
            count: 0,
        };
    };
    let logical = state_bytes::logical_at(state, file) as usize;
    let floor = state_bytes::floor_at(state, file) as usize;
    match table.slot_of(file, position / PAGE_BYTES) {
        Some(k) => Span {
            cached: true,
            from: PAGE_BYTES * k + position % PAGE_BYTES,
            count: to_page_end(position, logical),
        },
        None => Span {
            cached: false,
            from: file * (PAGE_BYTES * PAGES_PER_FILE) + position,
            count: to_page_end(position, floor),
        },
    }
}

// The answer of a look: its refusal, or as count the bytes from the position to the end of its page or to the logical size, the
// nearer. Where the part that the span shows is shorter, the rest of them are zeros.
pub fn look_count(
    media: &[u8],
    sizes: &[u32],
    frames: &[u8],
    state: &[u8],
    file: usize,
    position: usize,
) -> Result<usize, Refusal>
    ensures { coded result ≡ look_count_bytes pages_per_file file position (borrowed_at_entry media.now sizes.now frames.now state.now) }
{
    let mut table = SlotTable::none_cached();
    admit_at(media, sizes, frames, state, file, position, &mut table)?;
    let logical = state_bytes::logical_at(state, file) as usize;
    Ok(to_page_end(position, logical))
}
