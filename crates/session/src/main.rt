// The session program: reads lines from standard input, and prints a header and one line for each line of the input.
//
// It reads its input in blocks and keeps one block, one line and one block's output, whatever the length of the input or of a line.
#![tactic(auto)]

ghost use Rattle.std.specs.Prelude.{◌≡◌, MatchOption, IfOk, OnOk};
ghost use Rattle.std.specs.Io.KnownBytes.{Appends};
ghost use Rattle.media.specs.Geometry.{pages_per_file};
ghost use Rattle.media.specs.Write.{media_of};
ghost use Rattle.device.specs.Device.{device_of, down_state};
ghost use Rattle.session_run.specs.Session.{start_device};
ghost use Rattle.device.specs.Moments.{device_at_entry, device_at_exit};
ghost use Rattle.session.specs.Served.{GoesOn, Ends, Replies, Prints};

use session_run::Session;
use std::io::{ErrorKind, Read, Write};

// As many bytes are read at a time.
const BLOCK_BYTES: usize = 1024;

// There is room for a line for each of them.
const OUTPUT_BYTES: usize = BLOCK_BYTES * session_run::REPLY_BYTES;

// Reading or writing failed, and standard error says how; or the turns are used up.
#[derive(Clone, Copy)]
struct Failed;

// Writes text to standard output. Where that fails, standard error says how.
fn write_out<W: Write, E: Eprint>(writer: &mut W, rt: &E, text: &[u8]) -> Result<(), Failed>
    ensures { OnOk result (Appends (W.contents writer.old) (W.contents writer.new) text.now) }
{
    writer.write_all(text).map_err(|e| {
        let _ = eprintln!(rt; "session: standard output: {e}");
        Failed
    })
}

// Reads a block, runs it and writes what it prints; the session after it comes back. At the end of the input what that prints is
// written, and no session comes back. A read that a signal interrupts takes nothing, and the session goes on. The parts of the device are
// lent as `feed` takes them: a struct of them would be taken apart here.
fn serve_block<R: Read, W: Write, E: Eprint>(
    media: &mut [u8],
    sizes: &mut [u32],
    frames: &mut [u8],
    session: Session,
    input: &mut [u8; BLOCK_BYTES],
    output: &mut [u8; OUTPUT_BYTES],
    reader: &mut R,
    writer: &mut W,
    rt: &E,
) -> Result<Option<Session>, Failed>
    ensures { IfOk result (λ next. MatchOption next
        (Ends (R.remaining reader.old) (W.contents writer.old) (W.contents writer.new)
        (device_at_entry media.old sizes.old frames.old session.cache) session.line)
        (λ after. GoesOn (R.remaining reader.old) (R.remaining reader.new) (W.contents writer.old) (W.contents writer.new)
        (device_at_entry media.old sizes.old frames.old session.cache) session.line
        (device_at_exit media.new sizes.new frames.new after.cache) after.line)) }
{
    match reader.read(input) {
        Ok(0) => {
            let last = session_run::finish(media, sizes, frames, session, output);
            write_out(writer, rt, &output[..answer::count(last.answer)])?;
            Ok(None)
        }
        Ok(n) => {
            let block = session_run::feed(media, sizes, frames, session, &input[..n], output);
            write_out(writer, rt, &output[..answer::count(block.answer)])?;
            Ok(Some(block.session))
        }
        Err(e) if e.kind() == ErrorKind::Interrupted => Ok(Some(session)),
        Err(e) => {
            let _ = eprintln!(rt; "session: standard input: {e}");
            Err(Failed)
        }
    }
}

// Runs blocks until the input ends, on media that are all 0, lent as in `serve_block`. A proved loop has to end, and nothing says that the input does: so it
// makes as many turns as no run uses up.
fn run<R: Read, W: Write, E: Eprint>(
    media: &mut [u8],
    sizes: &mut [u32],
    frames: &mut [u8],
    input: &mut [u8; BLOCK_BYTES],
    output: &mut [u8; OUTPUT_BYTES],
    reader: &mut R,
    writer: &mut W,
    rt: &E,
) -> Result<(), Failed>
    requires { device_of (media_of media.old sizes.old) frames.old down_state ≡ start_device pages_per_file }
    ensures { OnOk result (Replies (R.remaining reader.old) (W.contents writer.old) (W.contents writer.new)) }
{
    let mut session = session_run::start();
    for _ in 0..u64::MAX {
        let next = serve_block(
            media, sizes, frames, session, input, output, reader, writer, rt,
        )?;
        match next {
            Some(after) => session = after,
            None => return Ok(()),
        }
    }
    Err(Failed)
}

// Prints the header, and runs the session.
fn print_session<R: Read, W: Write, E: Eprint>(
    media: &mut [u8],
    sizes: &mut [u32],
    frames: &mut [u8],
    input: &mut [u8; BLOCK_BYTES],
    output: &mut [u8; OUTPUT_BYTES],
    reader: &mut R,
    writer: &mut W,
    rt: &E,
) -> Result<(), Failed>
    requires { device_of (media_of media.old sizes.old) frames.old down_state ≡ start_device pages_per_file }
    ensures { OnOk result (Prints (R.remaining reader.old) (W.contents writer.old) (W.contents writer.new)) }
{
    write_out(writer, rt, &session_run::header())?;
    run(media, sizes, frames, input, output, reader, writer, rt)
}

fn main(rt: HostRuntime) {
    let mut media = [0u8; 32768];
    let mut sizes = [0u32; 8];
    let mut frames = [0u8; 6144];
    let mut input = [0u8; BLOCK_BYTES];
    let mut output = [0u8; OUTPUT_BYTES];
    let _ = print_session(
        &mut media,
        &mut sizes,
        &mut frames,
        &mut input,
        &mut output,
        &mut rt.stdin(),
        &mut rt.stdout(),
        &rt,
    );
}
