// The calls of the store, with the cache state by value: it goes in, and comes back beside the answer. The answer of a look is a call
// of its own, `look_count`.
//
// A call borrows the media (bytes and stored sizes), the page frames, and buffers of its own. Which of them it may change differs from
// call to call, so no struct holds them: one with exclusive borrows would ask more of callers. Start with `down_state` and a mount.
// The calls work on the bytes of the state, for callers that keep it so; here these bytes are made and read. The crate in brackets
// has the call, and says what it does.
#![tactic(auto)]

ghost use Rattle.std.specs.Prelude.{◌≡◌, List, ℕ};
ghost use Rattle.std.specs.Fn.{CalledAtMut};
ghost use Rattle.answer.specs.Coded.{coded};
ghost use Rattle.media.specs.Geometry.{pages_per_file};
ghost use Rattle.device.specs.Device.{device_of};
ghost use Rattle.device.specs.Admission.{give};
ghost use Rattle.device.specs.Reading.{read};
ghost use Rattle.device.specs.Looking.{look_count, look_span, look, look_place};
ghost use Rattle.device.specs.Writing.{write};
ghost use Rattle.device.specs.Truncating.{truncate};
ghost use Rattle.device.specs.Syncing.{sync};
ghost use Rattle.device.specs.Mounting.{mount, format};
ghost use Rattle.state_bytes.specs.Encoding.{encode, decode};
ghost use Rattle.state_bytes.specs.Inverse.{Shaped};
ghost use Rattle.media.specs.Moments.{media_at_entry, media_at_exit};
ghost use Rattle.device.specs.Moments.{device_at_entry, device_at_exit};

pub use answer::Refusal;
pub use device::{CacheState, FileSizes, Outcome, SLOTS, Slot, Span, down_state};
pub use media::{FILES, PAGE_BYTES, PAGES_PER_FILE};
use state_bytes::STATE_BYTES;
pub use writing::{sizes_after, sizes_answer, truncate_sizes};

// The bytes of a state.
fn bytes_of(cache: CacheState) -> [u8; STATE_BYTES]
    ensures { result ≡ encode cache }
{
    let mut bytes = [0; STATE_BYTES];
    state_bytes::encode(cache, &mut bytes);
    bytes
}

// A call on the bytes of a state, and the state that they say after it.
fn on_bytes<F: FnMut(&mut [u8]) -> Result<usize, Refusal>>(
    cache: CacheState,
    call: &mut F,
) -> Outcome
    requires { F.IsAlwaysCallable call.old }
    ensures shaped { Shaped cache }
    ensures called { (left : List ℕ) × CalledAtMut F.FnMut call.old (encode cache) result.answer call.new left × (result.cache ≡ decode left) }
{
    let mut state = bytes_of(cache);
    let answer = call(&mut state);
    Outcome {
        answer,
        cache: state_bytes::decode(&state),
    }
}

// Read (reading). A read and a look hand back the state as it came, so they make its bytes and no more.
pub fn read(
    media: &[u8],
    sizes: &[u32],
    frames: &[u8],
    cache: CacheState,
    file: usize,
    position: usize,
    buffer: &mut [u8],
) -> Outcome
    ensures { (give (coded result.answer) buffer.new
        ≡ read pages_per_file file position buffer.old (device_at_entry media.now sizes.now frames.now cache))
        × (result.cache ≡ cache) }
{
    let state = bytes_of(cache);
    let answer = reading::read(media, sizes, frames, &state, file, position, buffer);
    Outcome { answer, cache }
}

// Where a look's part lies (reading).
pub fn look_span(
    media: &[u8],
    sizes: &[u32],
    frames: &[u8],
    cache: CacheState,
    file: usize,
    position: usize,
) -> Span
    ensures { result ≡ look_span pages_per_file file position (device_at_entry media.now sizes.now frames.now cache) }
{
    reading::look_span(media, sizes, frames, &bytes_of(cache), file, position)
}

// Look: the part itself, and never a copy.
pub fn look<'a>(
    media: &'a [u8],
    sizes: &[u32],
    frames: &'a [u8],
    cache: CacheState,
    file: usize,
    position: usize,
) -> &'a [u8]
    ensures { (result.now ≡ look pages_per_file file position (device_at_entry media.now sizes.now frames.now cache))
        × (result.ref_ptr ≡ look_place pages_per_file file position media.entry.ref_ptr frames.entry.ref_ptr
        (device_at_entry media.now sizes.now frames.now cache)) }
{
    let span = look_span(media, sizes, frames, cache, file, position);
    let bytes = if span.cached { frames } else { media };
    &bytes[span.from..span.from + span.count]
}

// The answer of a look (reading).
pub fn look_count(
    media: &[u8],
    sizes: &[u32],
    frames: &[u8],
    cache: CacheState,
    file: usize,
    position: usize,
) -> Outcome
    ensures { (coded result.answer
        ≡ look_count pages_per_file file position (device_at_entry media.now sizes.now frames.now cache))
        × (result.cache ≡ cache) }
{
    let state = bytes_of(cache);
    let answer = reading::look_count(media, sizes, frames, &state, file, position);
    Outcome { answer, cache }
}

// Write (writing).
pub fn write(
    media: &[u8],
    sizes: &[u32],
    frames: &mut [u8],
    cache: CacheState,
    file: usize,
    position: usize,
    bytes: &[u8],
) -> Outcome
    ensures { give (coded result.answer) (device_at_exit media.now sizes.now frames.new result.cache)
        ≡ write pages_per_file file position bytes.now (device_at_entry media.now sizes.now frames.old cache) }
{
    on_bytes(
        cache,
        &mut |state| writing::write(media, sizes, frames, state, file, position, bytes),
    )
}

// Truncate (writing).
pub fn truncate(
    media: &[u8],
    sizes: &[u32],
    frames: &mut [u8],
    cache: CacheState,
    file: usize,
    n: usize,
) -> Outcome
    ensures { give (coded result.answer) (device_at_exit media.now sizes.now frames.new result.cache)
        ≡ truncate pages_per_file file n (device_at_entry media.now sizes.now frames.old cache) }
{
    on_bytes(
        cache,
        &mut |state| writing::truncate(media, sizes, frames, state, file, n),
    )
}

// Sync (writeback).
pub fn sync(
    media: &mut [u8],
    sizes: &mut [u32],
    frames: &[u8],
    cache: CacheState,
    file: usize,
    budget: usize,
) -> Outcome
    ensures { give (coded result.answer) (device_at_exit media.new sizes.new frames.now result.cache)
        ≡ sync pages_per_file file budget (device_at_entry media.old sizes.old frames.now cache) }
{
    on_bytes(
        cache,
        &mut |state| writeback::sync(media, sizes, frames, state, file, budget),
    )
}

// Mount (writeback). The state that comes in is not looked at.
pub fn mount(media: &mut [u8], sizes: &mut [u32], cache: CacheState, budget: usize) -> Outcome
    ensures { (frames : List ℕ) → give (coded result.answer) (device_of (media_at_exit media.new sizes.new) frames result.cache)
        ≡ mount pages_per_file budget (device_of (media_at_entry media.old sizes.old) frames cache) }
{
    on_bytes(
        cache,
        &mut |state| writeback::mount(media, sizes, state, budget),
    )
}

// Format (writeback). The state that comes in is not looked at.
pub fn format(media: &mut [u8], sizes: &mut [u32], cache: CacheState, budget: usize) -> Outcome
    ensures { (frames : List ℕ) → give (coded result.answer) (device_of (media_at_exit media.new sizes.new) frames result.cache)
        ≡ format pages_per_file budget (device_of (media_at_entry media.old sizes.old) frames cache) }
{
    on_bytes(
        cache,
        &mut |state| writeback::format(media, sizes, state, budget),
    )
}
