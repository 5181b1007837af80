// The store for callers that are not written in Rattle: each call on numbers and slices, with the cache state as bytes.
//
// interop/boxstore.h is this interface for C, with what it asks of its caller. specs/Interface.antt says what each call gives.
//
// An answer is one word, 65,536 × number + count. Number 0 is done, so a done call answers its count.
#![tactic(auto)]

ghost use Rattle.std.specs.Prelude.{◌≡◌, List, ℕ, ◌<◌, length};
ghost use Rattle.answer.specs.Coded.{coded};
ghost use Rattle.media.specs.Geometry.{pages_per_file};
ghost use Rattle.media.specs.Direct.{page_answer, page_after, size_answer, size_after, trim_answer, trim_after};
ghost use Rattle.device.specs.Writing.{write};
ghost use Rattle.device.specs.Truncating.{truncate};
ghost use Rattle.device.specs.Syncing.{sync};
ghost use Rattle.device.specs.Mounting.{mount, format};
ghost use Rattle.state_bytes.specs.InPlace.{borrowed, on_bytes, read_bytes, look_count_bytes, look_span_bytes};
ghost use Rattle.trip_list.specs.Lookup.{looked, read_trip, next_trip};
ghost use Rattle.boxstore.specs.Interface.{word_of, reply, in_word, span_word, down_bytes, truncate_sizes, over_numbers, in_numbers, write_trips, join_trips};
ghost use Rattle.media.specs.Moments.{media_at_entry, media_at_exit};
ghost use Rattle.state_bytes.specs.Moments.{borrowed_at_entry, borrowed_at_exit};

use answer::Refusal;
use device::{FileSizes, Span};
use trip_list::Lookup;

// SHAPE as a word of the C interface.
const SHAPE: u32 = 131072;

// An answer as a word.
fn answer_word(a: Result<usize, Refusal>) -> u32
    requires { (coded a).count < 65536 }
    ensures { result ≡ word_of (coded a) }
{
    let number = answer::number(a) as u32;
    let count = answer::count(a) as u32;
    65536 * number + count
}

// Down: the state becomes the down state, as at the start and after a loss of power.
#[unsafe(no_mangle)]
pub extern "C" fn boxstore_down(state: &mut [u8]) -> u32
    ensures { reply result state.new ≡ in_word (down_bytes state.old) }
{
    if state.len() != state_bytes::STATE_BYTES {
        return SHAPE;
    }
    state_bytes::encode(device::down_state(), state);
    0
}

// Format: empties all files. The device is down after it, done or cut.
#[unsafe(no_mangle)]
pub extern "C" fn boxstore_format(
    media: &mut [u8],
    sizes: &mut [u32],
    state: &mut [u8],
    budget: usize,
) -> u32
    ensures { (frames : List ℕ) → reply result (borrowed (media_at_exit media.new sizes.new) frames state.new)
        ≡ in_word (on_bytes (format pages_per_file budget) (borrowed (media_at_entry media.old sizes.old) frames state.old)) }
{
    answer_word(writeback::format(media, sizes, state, budget))
}

// Mount: brings the device up, with no page cached and the stored sizes.
#[unsafe(no_mangle)]
pub extern "C" fn boxstore_mount(
    media: &mut [u8],
    sizes: &mut [u32],
    state: &mut [u8],
    budget: usize,
) -> u32
    ensures { (frames : List ℕ) → reply result (borrowed (media_at_exit media.new sizes.new) frames state.new)
        ≡ in_word (on_bytes (mount pages_per_file budget) (borrowed (media_at_entry media.old sizes.old) frames state.old)) }
{
    answer_word(writeback::mount(media, sizes, state, budget))
}

// Read: copies as many bytes as the buffer takes, up to the logical size, and counts them.
#[unsafe(no_mangle)]
pub extern "C" fn boxstore_read(
    media: &[u8],
    sizes: &[u32],
    frames: &[u8],
    state: &[u8],
    file: usize,
    position: usize,
    buffer: &mut [u8],
) -> u32
    ensures { reply result buffer.new
        ≡ in_word (read_bytes pages_per_file file position buffer.old (borrowed_at_entry media.now sizes.now frames.now state.now)) }
{
    answer_word(reading::read(media, sizes, frames, state, file, position, buffer))
}

// Write: puts the bytes into cached pages, ascending, and counts them.
#[unsafe(no_mangle)]
pub extern "C" fn boxstore_write(
    media: &[u8],
    sizes: &[u32],
    frames: &mut [u8],
    state: &mut [u8],
    file: usize,
    position: usize,
    bytes: &[u8],
) -> u32
    ensures { reply result (borrowed_at_exit media.now sizes.now frames.new state.new)
        ≡ in_word (on_bytes (write pages_per_file file position bytes.now) (borrowed_at_entry media.now sizes.now frames.old state.old)) }
{
    answer_word(writing::write(media, sizes, frames, state, file, position, bytes))
}

// Truncate: the file has n bytes after it; the count is 0.
#[unsafe(no_mangle)]
pub extern "C" fn boxstore_truncate(
    media: &[u8],
    sizes: &[u32],
    frames: &mut [u8],
    state: &mut [u8],
    file: usize,
    n: usize,
) -> u32
    ensures { reply result (borrowed_at_exit media.now sizes.now frames.new state.new)
        ≡ in_word (on_bytes (truncate pages_per_file file n) (borrowed_at_entry media.now sizes.now frames.old state.old)) }
{
    answer_word(writing::truncate(media, sizes, frames, state, file, n))
}

// Sync: stores a file, and counts the media writes.
#[unsafe(no_mangle)]
pub extern "C" fn boxstore_sync(
    media: &mut [u8],
    sizes: &mut [u32],
    frames: &[u8],
    state: &mut [u8],
    file: usize,
    budget: usize,
) -> u32
    ensures { reply result (borrowed_at_exit media.new sizes.new frames.now state.new)
        ≡ in_word (on_bytes (sync pages_per_file file budget) (borrowed_at_entry media.old sizes.old frames.now state.old)) }
{
    answer_word(writeback::sync(media, sizes, frames, state, file, budget))
}

// The count of a look: from the position to the end of its page or to the logical size, the nearer.
#[unsafe(no_mangle)]
pub extern "C" fn boxstore_look_count(
    media: &[u8],
    sizes: &[u32],
    frames: &[u8],
    state: &[u8],
    file: usize,
    position: usize,
) -> u32
    ensures { result ≡ word_of (look_count_bytes pages_per_file file position (borrowed_at_entry media.now sizes.now frames.now state.now)) }
{
    answer_word(reading::look_count(media, sizes, frames, state, file, position))
}

// Where a part lies, as a word.
fn span_word(s: Span) -> u64
    requires { (s.from < 65536) × (s.count < 65536) }
    ensures { result ≡ span_word s }
{
    let from = s.from as u64;
    let count = s.count as u64;
    if s.cached {
        return 4294967296 * from + 65536 + count;
    }
    4294967296 * from + count
}

// Look: where the bytes from the position on lie, to the end of its page at most: 2³² × offset + 65,536 × source + count.
#[unsafe(no_mangle)]
pub extern "C" fn boxstore_look(
    media: &[u8],
    sizes: &[u32],
    frames: &[u8],
    state: &[u8],
    file: usize,
    position: usize,
) -> u64
    ensures { result ≡ span_word (look_span_bytes pages_per_file file position (borrowed_at_entry media.now sizes.now frames.now state.now)) }
{
    span_word(reading::look_span(media, sizes, frames, state, file, position))
}

// The truncate rule on the sizes of one file: logical size, floor and stored size.
#[unsafe(no_mangle)]
pub extern "C" fn boxstore_truncate_sizes(sizes: &mut [u32], n: usize, greatest: u32) -> u32
    ensures { reply result sizes.new ≡ in_word (truncate_sizes greatest n sizes.old) }
{
    if sizes.len() != 3 {
        return SHAPE;
    }
    let came = FileSizes {
        logical: sizes[0],
        floor: sizes[1],
        stored: sizes[2],
    };
    let after = writing::sizes_after(came, n, greatest);
    sizes[0] = after.logical;
    sizes[1] = after.floor;
    sizes[2] = after.stored;
    answer_word(writing::sizes_answer(came, n, greatest))
}

// PAGE by itself.
#[unsafe(no_mangle)]
pub extern "C" fn boxstore_write_page(page: &mut [u8], bytes: &[u8]) -> u32
    ensures { (result ≡ word_of (page_answer page.old bytes.now))
        × (page.new ≡ page_after page.old bytes.now) }
{
    answer_word(media::write_page(page, bytes))
}

// SIZE by itself.
#[unsafe(no_mangle)]
pub extern "C" fn boxstore_write_size(media: &[u8], sizes: &mut [u32], file: usize, n: usize) -> u32
    ensures { (result ≡ word_of (size_answer pages_per_file (media_at_entry media.now sizes.old) file n))
        × (media_at_exit media.now sizes.new ≡ size_after pages_per_file (media_at_entry media.now sizes.old) file n) }
{
    answer_word(media::write_size(media, sizes, file, n))
}

// TRIM by itself.
#[unsafe(no_mangle)]
pub extern "C" fn boxstore_trim(media: &mut [u8], sizes: &mut [u32], file: usize, n: usize) -> u32
    ensures { (result ≡ word_of (trim_answer pages_per_file (media_at_entry media.old sizes.old) file n))
        × (media_at_exit media.new sizes.new ≡ trim_after pages_per_file (media_at_entry media.old sizes.old) file n) }
{
    answer_word(media::trim(media, sizes, file, n))
}

// ---- trip lists

// What was read, as a word; a trip that was found is put into the four numbers.
fn put_lookup(list: &[u8], found: Result<Lookup, Refusal>, trip: &mut [u32]) -> u32
    requires { (length trip.old ≡ 4) × ((looked list.now found).answer.count < 65536) }
    ensures { (result ≡ word_of (looked list.now found).answer)
        × (trip.new ≡ over_numbers (looked list.now found).trip trip.old) }
{
    match found {
        Ok(found) => {
            if let Some(t) = found.trip {
                trip.copy_from_slice(&[t.minute, t.metres, t.driver, t.letters]);
            }
            found.count as u32
        }
        Err(refusal) => answer_word(Err(refusal)),
    }
}

// Read trip: the trip at a place of a list, from 0, as four numbers; counts the trips of the list.
#[unsafe(no_mangle)]
pub extern "C" fn boxstore_read_trip(list: &[u8], place: usize, trip: &mut [u32]) -> u32
    ensures { reply result trip.new ≡ in_word (in_numbers (read_trip list.now place) trip.old) }
{
    if trip.len() != 4 {
        return SHAPE;
    }
    put_lookup(list, trip_list::read(list, place), trip)
}

// Next trip: the trip of the line that starts at an index, as four numbers; the count is the index after that line, 0 at the end.
#[unsafe(no_mangle)]
pub extern "C" fn boxstore_next_trip(list: &[u8], at: usize, least: usize, trip: &mut [u32]) -> u32
    ensures { reply result trip.new ≡ in_word (in_numbers (next_trip list.now at least) trip.old) }
{
    if trip.len() != 4 {
        return SHAPE;
    }
    put_lookup(list, trip_list::next_trip(list, at, least), trip)
}

// Write trips: a list in its one spelling, at the front of the buffer; counts its bytes.
#[unsafe(no_mangle)]
pub extern "C" fn boxstore_write_trips(list: &[u8], buffer: &mut [u8]) -> u32
    ensures { reply result buffer.new ≡ in_word (write_trips list.now buffer.old) }
{
    answer_word(trip_writer::write(list, buffer))
}

// Join trips: two lists as one in its one spelling, at the front of the buffer; counts its bytes.
#[unsafe(no_mangle)]
pub extern "C" fn boxstore_join_trips<'a>(
    first: &'a [u8],
    second: &'a [u8],
    buffer: &mut [u8],
) -> u32
    ensures { reply result buffer.new ≡ in_word (join_trips first.now second.now buffer.old) }
{
    answer_word(trip_writer::join(first, second, buffer))
}
