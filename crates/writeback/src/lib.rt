// The calls that write to the media: sync, mount and format.
//
// Each carries out a plan of media writes. Where the budget pays for all of them, it is done with their number as count. Where it
// does not, as many first writes are done as it pays for, the answer is CUT, and the state that is left is down. The state is borrowed as
// bytes. Of these, mount and format look at their number only. The media refuses none of the writes, so what it answers is not looked at.
#![tactic(auto)]

ghost use Rattle.std.specs.Prelude.{◌≡◌, List, ℕ, ◌+◌, ◌≤◌, ◌<◌, ◌^◌, length, get_or, eqb, ltb};
ghost use Rattle.answer.specs.Coded.{coded, coded_refusal, CUT};
ghost use Rattle.memory.specs.Bytes.{part};
ghost use Rattle.media.specs.Geometry.{files, pages_per_file, page_bytes, file_bytes, media_bytes};
ghost use Rattle.media.specs.Write.{Media, media_of, apply};
ghost use Rattle.media.specs.Write.MediaWrite.{page};
ghost use Rattle.scan.specs.Scan.{every};
ghost use Rattle.device.specs.Device.{Device, slot_count, frame_start, down_state};
ghost use Rattle.device.specs.Admission.{give};
ghost use Rattle.device.specs.Plan.{budgeted, Spent};
ghost use Rattle.device.specs.Syncing.{page_writes, sync_plan, synced_state, sync};
ghost use Rattle.device.specs.Mounting.{nonzero_from, mount, format};
ghost use Rattle.state_bytes.specs.Encoding.{state_bytes, encode, decode};
ghost use Rattle.state_bytes.specs.InPlace.{borrowed, in_bytes, on_bytes};
ghost use Rattle.media.specs.Moments.{media_at_entry, media_at_exit};
ghost use Rattle.device.specs.Moments.{device_at_entry};
ghost use Rattle.state_bytes.specs.Moments.{borrowed_at_entry, borrowed_at_exit};
ghost use Rattle.admission.specs.Tables.{slot_table};
ghost use Rattle.writeback.specs.Trims.{needs_trim, trims_to};

use admission::SlotTable;
use answer::Refusal;
use device::CacheState;
use state_bytes::STATE_BYTES;

// The bytes of a media, and of the page frames beside it.
const MEDIA_BYTES: usize = media::FILES * media::PAGES_PER_FILE * media::PAGE_BYTES;

const FRAMES_BYTES: usize = device::SLOTS * media::PAGE_BYTES;

// The media writes that a call has needed so far, and how many are paid for.
#[derive(Clone, Copy)]
struct Budget {
    paid: usize,
    needed: usize,
}

impl Budget {
    // Whether one more write is paid for. It is needed in either case.
    fn pays(&mut self) -> bool
        requires { self.old.needed < 2 ^ 32 }
        ensures paid { self.new.paid ≡ self.old.paid }
        ensures needed { self.new.needed ≡ self.old.needed + 1 }
        ensures made { result ≡ ltb self.old.needed self.old.paid }
    {
        self.needed += 1;
        self.needed <= self.paid
    }
}

// PAGE: the bytes of a slot replace one page of the media, which is a slice: its length goes by the number of pages.
fn write_frame(
    media: &mut [u8],
    frames: &[u8; FRAMES_BYTES],
    file: usize,
    number: usize,
    slot: usize,
    pages: usize,
)
    requires { (file_bytes pages < 2 ^ 32) × (length media.old ≡ media_bytes pages) × (file < files) × (number < pages)
        × (slot < slot_count) }
    ensures { (stored : List ℕ) → media_of media.new stored
        ≡ apply pages (media_of media.old stored) (page file number (part frames.now
        (frame_start slot) page_bytes)) }
{
    let from = file * (media::PAGE_BYTES * pages) + media::PAGE_BYTES * number;
    let end = from + media::PAGE_BYTES;
    let first = media::PAGE_BYTES * slot;
    let last = first + media::PAGE_BYTES;
    let _ = media::write_page(&mut media[from..end], &frames[first..last]);
}

// The cached pages of a file, ascending, each if the budget pays. The table has their slots.
fn write_pages(
    media: &mut [u8; MEDIA_BYTES],
    frames: &[u8; FRAMES_BYTES],
    table: &SlotTable,
    file: usize,
    budget: &mut Budget,
)
    requires { (file < files) × (budget.old.needed ≤ 1) }
    ensures paid { budget.new.paid ≡ budget.old.paid }
    ensures few { budget.new.needed ≤ budget.old.needed + pages_per_file }
    ensures written { (stored : List ℕ) (d : Device) → d.frames ≡ frames.now
        → table.now.slots ≡ slot_table pages_per_file d.cache.slots
        → Spent pages_per_file budget.old.paid (media_of media.old stored) budget.old.needed budget.new.needed
        (page_writes d file pages_per_file 0) (media_of media.new stored) }
{
    for number in 0..media::PAGES_PER_FILE {
        if let Some(slot) = table.slot_of(file, number) {
            if budget.pays() {
                write_frame(media, frames, file, number, slot, media::PAGES_PER_FILE);
            }
        }
    }
}

// The writes of a sync, as many as the budget pays for: TRIM, the pages, SIZE. The number needed comes back. Media and sizes come
// apart, as the three writes of the media take them.
fn sync_writes(
    media: &mut [u8; MEDIA_BYTES],
    sizes: &mut [u32; media::FILES],
    frames: &[u8; FRAMES_BYTES],
    state: &[u8],
    table: &SlotTable,
    file: usize,
    paid: usize,
) -> usize
    requires { (file < files) × (get_or (decode state.now).floor file 0 ≤ get_or sizes.old file 0)
        × (get_or (decode state.now).floor file 0 ≤ get_or (decode state.now).logical file 0)
        × (get_or (decode state.now).logical file 0 ≤ file_bytes pages_per_file)
        × (table.now.slots ≡ slot_table pages_per_file (decode state.now).slots) }
    ensures { Spent pages_per_file paid (media_at_entry media.old sizes.old) 0 result
        (sync_plan pages_per_file (device_at_entry media.old sizes.old frames.now (decode state.now)) file)
        (media_at_exit media.new sizes.new) }
{
    let logical = state_bytes::logical_at(state, file) as usize;
    let floor = state_bytes::floor_at(state, file) as usize;
    let shrunk = floor < sizes[file] as usize;
    let resized = logical != floor;
    let mut budget = Budget { paid, needed: 0 };
    if shrunk && budget.pays() {
        let _ = media::trim(media, sizes, file, floor);
    }
    write_pages(media, frames, table, file, &mut budget);
    if resized && budget.pays() {
        let _ = media::write_size(media, sizes, file, logical);
    }
    budget.needed
}

// The state after a sync of a file: its pages are free, and its floor is its logical size. A slice: what a call leaves in it is known to
// be bytes, as it is not of an array.
fn sync_state(state: &mut [u8], file: usize)
    requires { length state.old ≡ state_bytes }
    ensures { decode state.new ≡ synced_state (decode state.old) file }
{
    let logical = state_bytes::logical_at(state, file);
    admission::free_pages_from(state, file, 0);
    state_bytes::set_floor(state, file, logical);
}

// CUT, of a call whose budget did not pay for all its writes: the state becomes the down state.
fn cut(state: &mut [u8; STATE_BYTES], budget: usize) -> Refusal
    ensures { (coded_refusal result ≡ CUT budget) × (state.new ≡ encode down_state) }
{
    state_bytes::encode(device::down_state(), state);
    Refusal::Cut(budget)
}

// Sync: stores a file. Its TRIM, its cached pages and its SIZE go to the media; after it its pages are free. A sync that is cut leaves
// the device down.
pub fn sync(
    media: &mut [u8],
    sizes: &mut [u32],
    frames: &[u8],
    state: &mut [u8],
    file: usize,
    budget: usize,
) -> Result<usize, Refusal>
    ensures { give (coded result) (borrowed_at_exit media.new sizes.new frames.now state.new)
        ≡ on_bytes (sync pages_per_file file budget) (borrowed_at_entry media.old sizes.old frames.now state.old) }
{
    let mut table = SlotTable::none_cached();
    admission::admit(
        media.len(),
        sizes,
        frames.len(),
        state,
        file,
        true,
        &mut table,
    )?;
    // What is admitted has the lengths of the arrays.
    let media = media.as_mut_array().unwrap();
    let sizes = sizes.as_mut_array().unwrap();
    let frames = frames.as_array().unwrap();
    let state = state.as_mut_array().unwrap();
    let needed = sync_writes(media, sizes, frames, state, &table, file, budget);
    if budget < needed {
        return Err(cut(state, budget));
    }
    sync_state(state, file);
    Ok(needed)
}

// Whether all bytes are 0. A page at a time, since a loop of a known length is faster.
fn all_zero_by_pages(bytes: &[u8]) -> bool
    ensures { result ≡ every (λ b. eqb b 0) bytes.now }
{
    let (pages, rest) = bytes.as_chunks::<{ media::PAGE_BYTES }>();
    pages.iter().all(|page| scan::all_zero(page)) && scan::all_zero(rest)
}

// Whether a file has a nonzero byte at or past n.
fn nonzero_from(media: &[u8; MEDIA_BYTES], file: usize, n: usize) -> bool
    requires { (file < files) × (n ≤ file_bytes pages_per_file) }
    ensures { (stored : List ℕ) → result ≡ nonzero_from pages_per_file (media_of media.now stored) file n }
{
    let file_len = media::PAGE_BYTES * media::PAGES_PER_FILE;
    let start = file * file_len;
    !all_zero_by_pages(&media[start + n..start + file_len])
}

// Whether a file has a nonzero byte at or past n, or another stored size than n.
fn needs_trim(media: &[u8; MEDIA_BYTES], sizes: &[u32; media::FILES], file: usize, n: usize) -> bool
    requires { (file < files) × (n ≤ file_bytes pages_per_file) }
    ensures { result ≡ needs_trim pages_per_file (media_at_entry media.now sizes.now) file n }
{
    sizes[file] as usize != n || nonzero_from(media, file, n)
}

// The TRIMs of the files that need it to their targets, as many as are paid for. The number needed comes back.
fn trim_files(
    media: &mut [u8; MEDIA_BYTES],
    sizes: &mut [u32; media::FILES],
    targets: &[u32; media::FILES],
    paid: usize,
) -> usize
    requires { (f : ℕ) → f < files → (get_or targets.now f 0 ≤ get_or sizes.old f 0)
        × (get_or targets.now f 0 ≤ file_bytes pages_per_file) }
    ensures { Spent pages_per_file paid (media_at_entry media.old sizes.old) 0 result
        (trims_to pages_per_file (media_at_entry media.old sizes.old) targets.now) (media_at_exit media.new sizes.new) }
{
    let mut budget = Budget { paid, needed: 0 };
    for (file, &target) in targets.iter().enumerate() {
        let target = target as usize;
        if needs_trim(media, sizes, file, target) && budget.pays() {
            let _ = media::trim(media, sizes, file, target);
        }
    }
    budget.needed
}

// The end of a mount or a format that needed so many media writes: done with their number, and the bytes of this state; or CUT.
// Inlined, as `encode` is: what is known of the state stays known.
#[inline(always)]
fn finish(
    state: &mut [u8; STATE_BYTES],
    needed: usize,
    budget: usize,
    cache: CacheState,
) -> Result<usize, Refusal>
    ensures { (m : Media) (frames : List ℕ) → give (coded result) (borrowed m frames state.new)
        ≡ in_bytes (budgeted budget needed m frames cache) }
{
    if budget < needed {
        return Err(cut(state, budget));
    }
    state_bytes::encode(cache, state);
    Ok(needed)
}

// Mount: brings the device up, with no page cached and the stored sizes. Bytes past a stored size are cleared first, by TRIM.
// Of the state that comes in only the length is looked at.
pub fn mount(
    media: &mut [u8],
    sizes: &mut [u32],
    state: &mut [u8],
    budget: usize,
) -> Result<usize, Refusal>
    ensures { (frames : List ℕ) → give (coded result) (borrowed (media_at_exit media.new sizes.new) frames state.new)
        ≡ on_bytes (mount pages_per_file budget) (borrowed (media_at_entry media.old sizes.old) frames state.old) }
{
    admission::admit_mount(media.len(), sizes, state)?;
    // What is admitted has the lengths of the arrays.
    let media = media.as_mut_array().unwrap();
    let sizes = sizes.as_mut_array().unwrap();
    let state = state.as_mut_array().unwrap();
    let found = *sizes;
    let needed = trim_files(media, sizes, &found, budget);
    finish(state, needed, budget, admission::mounted_state(found))
}

// Format: empties all files, by TRIM to 0. It is a mount but for its tests, its targets and the state that it leaves. The device is down after it, done or cut. Of the state that comes in only the length is
// looked at.
pub fn format(
    media: &mut [u8],
    sizes: &mut [u32],
    state: &mut [u8],
    budget: usize,
) -> Result<usize, Refusal>
    ensures { (frames : List ℕ) → give (coded result) (borrowed (media_at_exit media.new sizes.new) frames state.new)
        ≡ on_bytes (format pages_per_file budget) (borrowed (media_at_entry media.old sizes.old) frames state.old) }
{
    admission::admit_format(media.len(), sizes, state)?;
    // What is admitted has the lengths of the arrays.
    let media = media.as_mut_array().unwrap();
    let sizes = sizes.as_mut_array().unwrap();
    let state = state.as_mut_array().unwrap();
    let needed = trim_files(media, sizes, &[0; media::FILES], budget);
    finish(state, needed, budget, device::down_state())
}
