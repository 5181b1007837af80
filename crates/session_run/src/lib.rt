// Runs a session on a device: a line at a time, or its input in blocks that may be cut anywhere.
//
// The media, the stored sizes and the page frames are borrowed; the cache state and the line that has not ended go in by value
// and come back. Start with `start`, print `header`, hand each block to `feed`, and at the end of the input call `finish`.
#![tactic(auto)]

ghost use Rattle.std.specs.Prelude.{◌≡◌, ◌≤◌, length, replicate, None, IfSome};
ghost use Rattle.answer.specs.Coded.{coded};
ghost use Rattle.media.specs.Geometry.{pages_per_file};
ghost use Rattle.device.specs.Device.{down_state};
ghost use Rattle.device.specs.Admission.{give};
ghost use Rattle.device.specs.Writing.{write};
ghost use Rattle.session_line.specs.Grammar.{greatest_write, greatest_read};
ghost use Rattle.session_line.specs.Request.{spelled};
ghost use Rattle.session_line.specs.Reply.{header};
ghost use Rattle.session_line.specs.Parser.{Within};
ghost use Rattle.session_run.specs.Session.{run};
ghost use Rattle.session_run.specs.Feeding.{reply_bytes, no_line, pushed, line_of, last_end, run_into, state_of, feed_block};
ghost use Rattle.session_run.specs.Steps.{write_buffer, shown_bytes, Executed};
ghost use Rattle.device.specs.Moments.{device_at_entry, device_at_exit};

use cache::{CacheState, Outcome, Refusal};
use session_line::Request;

// The greatest length of a line that is printed.
pub const REPLY_BYTES: usize = 70;

// As many first bytes of a line are kept: one more than a line with a form may have.
pub const KEPT_BYTES: usize = 41;

const GREATEST_WRITE: usize = 4096;

const GREATEST_READ: usize = 32;

// The line that has not ended yet, in fixed memory. A caller may make one of any `len`, so no ghost field bounds it.
#[derive(Clone, Copy)]
pub struct PartialLine {
    pub bytes: [u8; KEPT_BYTES],
    pub len: usize,
}

impl PartialLine {
    // A byte more; a line that is over 40 bytes keeps its first 41.
    fn push(&mut self, byte: u8)
        ensures { self.new ≡ pushed byte self.old }
    {
        if self.len < KEPT_BYTES {
            self.bytes[self.len] = byte;
            self.len += 1;
        }
    }

    fn as_slice(&self) -> &[u8]
        ensures { result.now ≡ line_of self.now }
    {
        &self.bytes[..self.len.min(KEPT_BYTES)]
    }
}

// A session between two blocks of its input.
#[derive(Clone, Copy)]
pub struct Session {
    pub cache: CacheState,
    pub line: PartialLine,
}

// What a block of input gives: as count the bytes that it printed, and the session after it.
#[derive(Clone, Copy)]
pub struct SessionOutcome {
    pub answer: Result<usize, Refusal>,
    pub session: Session,
}

// ---- one line

// What the call of a line gave, with the buffer of a read.
#[derive(Clone, Copy)]
struct Call {
    outcome: Outcome,
    buffer: Option<[u8; GREATEST_READ]>,
}

impl From<Outcome> for Call {
    ghost from_gives = { λ outcome call. call ≡ record { outcome = outcome; buffer = None } };

    fn from(outcome: Outcome) -> Call {
        Call {
            outcome,
            buffer: None,
        }
    }
}

impl Call {
    // The bytes that are printed: of a read as many as it counts.
    fn shown(&self, count: usize) -> &[u8]
        requires { IfSome self.now.buffer (λ _. count ≤ greatest_read) }
        ensures { result.now ≡ shown_bytes count self.now.buffer }
    {
        match &self.buffer {
            Some(buffer) => &buffer[..count],
            None => &[],
        }
    }
}

// As many bytes of one value as a line may write; apart, since a proof would write them all out.
fn write_buffer(byte: u8) -> [u8; GREATEST_WRITE]
    ensures { result ≡ write_buffer byte }
{
    [byte; GREATEST_WRITE]
}

// A write of bytes of one value. A function of its own: one clears the arrays that it has as it is entered, and this array is long.
fn write_bytes(
    media: &[u8],
    sizes: &[u32],
    frames: &mut [u8],
    cache: CacheState,
    file: usize,
    position: usize,
    count: usize,
    byte: u8,
) -> Outcome
    requires { count ≤ greatest_write }
    ensures { give (coded result.answer) (device_at_exit media.now sizes.now frames.new result.cache)
        ≡ write pages_per_file file position (replicate count byte) (device_at_entry media.now sizes.now frames.old cache) }
{
    let bytes = write_buffer(byte);
    cache::write(media, sizes, frames, cache, file, position, &bytes[..count])
}

// The call that a line asks for; LINE where it asks for none. It borrows the media, the stored sizes and the frames apart, as the public
// calls do.
fn execute(
    media: &mut [u8],
    sizes: &mut [u32],
    frames: &mut [u8],
    cache: CacheState,
    request: Option<Request>,
) -> Call
    requires { Within request }
    ensures { Executed (run pages_per_file (spelled request) (device_at_entry media.old sizes.old frames.old cache))
        (coded result.outcome.answer) result.buffer (device_at_exit media.new sizes.new frames.new result.outcome.cache) }
{
    let Some(request) = request else {
        let answer = Err(Refusal::Line);
        return Call::from(Outcome { answer, cache });
    };
    match request {
        Request::Format { budget } => cache::format(media, sizes, cache, budget).into(),
        Request::Mount { budget } => cache::mount(media, sizes, cache, budget).into(),
        Request::Write {
            file,
            position,
            count,
            byte,
        } => write_bytes(media, sizes, frames, cache, file, position, count, byte).into(),
        Request::Truncate { file, size } => {
            cache::truncate(media, sizes, frames, cache, file, size).into()
        }
        Request::Sync { file, budget } => {
            cache::sync(media, sizes, frames, cache, file, budget).into()
        }
        Request::Read {
            file,
            position,
            count,
        } => {
            let mut buffer = [0; GREATEST_READ];
            let outcome = cache::read(
                media,
                sizes,
                frames,
                cache,
                file,
                position,
                &mut buffer[..count],
            );
            Call {
                outcome,
                buffer: Some(buffer),
            }
        }
    }
}

// Runs one line, without its LF, and prints its answer at the front of the output; SHAPE unless that has exactly 70 bytes. The
// count is the number of bytes printed, which is never above 70; the rest of the output keeps its bytes.
pub fn run_line(
    media: &mut [u8],
    sizes: &mut [u32],
    frames: &mut [u8],
    cache: CacheState,
    line: &[u8],
    output: &mut [u8],
) -> Outcome
    ensures { (give (coded result.answer) (device_at_exit media.new sizes.new frames.new result.cache, output.new)
        ≡ run_into pages_per_file line.now (device_at_entry media.old sizes.old frames.old cache, output.old))
        × ((coded result.answer).count ≤ reply_bytes) }
{
    if output.len() != REPLY_BYTES {
        return Outcome {
            answer: Err(Refusal::Shape),
            cache,
        };
    }
    let call = execute(media, sizes, frames, cache, session_line::parse(line));
    let Outcome { answer, cache } = call.outcome;
    let shown = call.shown(answer::count(answer));
    Outcome {
        answer: session_line::print(answer, shown, output),
        cache,
    }
}

// ---- the input, byte by byte

// A session before its first byte: down, and no line begun. The media, the stored sizes and the page frames start as zeros.
pub fn start() -> Session
    ensures { (result.cache ≡ down_state) × (result.line ≡ no_line) }
{
    Session {
        cache: cache::down_state(),
        line: PartialLine {
            bytes: [0; KEPT_BYTES],
            len: 0,
        },
    }
}

// The first line of the output.
pub fn header() -> [u8; 19]
    ensures { result ≡ header }
{
    *b"answer,count,bytes\n"
}

// Takes a block of input, prints what it gives at the front of the output, and counts it; the rest of the output keeps its bytes.
// SHAPE, and nothing is taken, where the output has less room than 70 bytes for each byte of the block.
pub fn feed(
    media: &mut [u8],
    sizes: &mut [u32],
    frames: &mut [u8],
    session: Session,
    input: &[u8],
    output: &mut [u8],
) -> SessionOutcome
    ensures { (give (coded result.answer) (state_of (device_at_exit media.new sizes.new frames.new result.session.cache)
        result.session.line output.new)
        ≡ feed_block pages_per_file input.now (state_of (device_at_entry media.old sizes.old frames.old session.cache)
        session.line output.old))
        × ((coded result.answer).count ≤ length output.old) }
{
    if output.len() / REPLY_BYTES < input.len() {
        return SessionOutcome {
            answer: Err(Refusal::Shape),
            session,
        };
    }
    let Session {
        mut cache,
        mut line,
    } = session;
    let mut put = 0;
    for &byte in input {
        if byte != b'\n' {
            line.push(byte);
            continue;
        }
        let ended = &mut output[put..put + REPLY_BYTES];
        let ran = run_line(media, sizes, frames, cache, line.as_slice(), ended);
        cache = ran.cache;
        line.len = 0;
        put += answer::count(ran.answer);
    }
    SessionOutcome {
        answer: Ok(put),
        session: Session { cache, line },
    }
}

// Ends the input: a last line that lacks its LF is run. SHAPE where there is one, and the output has less room than 70 bytes.
pub fn finish(
    media: &mut [u8],
    sizes: &mut [u32],
    frames: &mut [u8],
    session: Session,
    output: &mut [u8],
) -> SessionOutcome
    ensures { (give (coded result.answer) (state_of (device_at_exit media.new sizes.new frames.new result.session.cache)
        result.session.line output.new)
        ≡ feed_block pages_per_file (last_end session.line) (state_of (device_at_entry media.old sizes.old frames.old session.cache)
        session.line output.old))
        × ((coded result.answer).count ≤ length output.old) }
{
    let end: &[u8] = if session.line.len == 0 { &[] } else { b"\n" };
    feed(media, sizes, frames, session, end, output)
}
