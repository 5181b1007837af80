// One line of a session: what it asks for, and the line that is printed for the answer.
#![tactic(auto)]

ghost use Rattle.std.specs.Prelude.{◌≡◌, true, ◌+◌, ◌*◌, ◌≤◌, ◌<◌, length, take, drop};
ghost use Rattle.answer.specs.Coded.{coded};
ghost use Rattle.memory.specs.Bytes.{overwrite};
ghost use Rattle.text.specs.Decimal.{decimal};
ghost use Rattle.text.specs.Marks.{fields};
ghost use Rattle.session_line.specs.Grammar.{parse};
ghost use Rattle.session_line.specs.Reply.{hex, reply_line, print_answer, printed};
ghost use Rattle.session_line.specs.Parser.{number, numbers, Within};
ghost use Rattle.session_line.specs.Request.{spelled};

use answer::Refusal;
use itoa::Buffer;

// What a line asks for.
#[derive(Clone, Copy)]
pub enum Request {
    Format {
        budget: usize,
    },
    Mount {
        budget: usize,
    },
    // So many bytes, all of one value.
    Write {
        file: usize,
        position: usize,
        count: usize,
        byte: u8,
    },
    Truncate {
        file: usize,
        size: usize,
    },
    Sync {
        file: usize,
        budget: usize,
    },
    Read {
        file: usize,
        position: usize,
        count: usize,
    },
}

const GREATEST_LINE: usize = 40;

const GREATEST_NUMBER: usize = 65535;

const GREATEST_WRITE: usize = 4096;

const GREATEST_READ: usize = 32;

const GREATEST_BYTE: usize = 255;

// ---- numbers

// The value of a field that is a number of at most the limit: 1 to 5 digits.
fn number(text: &[u8], limit: usize) -> Option<usize>
    ensures { result ≡ number limit text.now }
{
    if text.is_empty() || text.len() > 5 {
        return None;
    }
    let mut value = 0;
    for &byte in text {
        if !byte.is_ascii_digit() {
            return None;
        }
        value = 10 * value + usize::from(byte - b'0');
    }
    (value <= limit).then_some(value)
}

// The numbers of fields between commas, where there is one for each limit, and each is within its limit.
fn numbers<const N: usize>(text: &[u8], limits: [usize; N]) -> Option<[usize; N]>
    ensures { result ≡ numbers limits.entry (fields text.now) }
{
    let mut fields = text.split(|byte| *byte == b',');
    let mut values = [0; N];
    for (i, &limit) in limits.iter().enumerate() {
        values[i] = number(fields.next()?, limit)?;
    }
    fields.next().is_none().then_some(values)
}

// ---- requests

// What a line, without its LF, asks for; none where it has none of the forms. A request to write or to read comes within the limits of its
// form.
pub fn parse(line: &[u8]) -> Option<Request>
    ensures { (spelled result ≡ parse line.now) × Within result }
{
    if line.len() > GREATEST_LINE {
        return None;
    }
    let [letter, b',', rest @ ..] = line else {
        return None;
    };
    match letter {
        b'F' => {
            let [budget] = numbers(rest, [GREATEST_NUMBER])?;
            Some(Request::Format { budget })
        }
        b'M' => {
            let [budget] = numbers(rest, [GREATEST_NUMBER])?;
            Some(Request::Mount { budget })
        }
        b'W' => {
            let [file, position, count, byte] = numbers(
                rest,
                [
                    GREATEST_NUMBER,
                    GREATEST_NUMBER,
                    GREATEST_WRITE,
                    GREATEST_BYTE,
                ],
            )?;
            Some(Request::Write {
                file,
                position,
                count,
                byte: byte as u8,
            })
        }
        b'T' => {
            let [file, size] = numbers(rest, [GREATEST_NUMBER, GREATEST_NUMBER])?;
            Some(Request::Truncate { file, size })
        }
        b'S' => {
            let [file, budget] = numbers(rest, [GREATEST_NUMBER, GREATEST_NUMBER])?;
            Some(Request::Sync { file, budget })
        }
        b'R' => {
            let [file, position, count] = numbers(
                rest,
                [GREATEST_NUMBER, GREATEST_NUMBER, GREATEST_READ],
            )?;
            Some(Request::Read {
                file,
                position,
                count,
            })
        }
        _ => None,
    }
}

// ---- the reply

// Lays bytes over the output from `at` on. The index after them comes back.
fn put(output: &mut [u8], at: usize, bytes: &[u8]) -> usize
    requires { at + length bytes.now ≤ length output.old }
    ensures { (output.new ≡ overwrite output.old at bytes.now) × (result ≡ at + length bytes.now) }
{
    let end = at + bytes.len();
    output[at..end].copy_from_slice(bytes);
    end
}

// The same of bytes in hexadecimal.
fn put_hex(output: &mut [u8], at: usize, bytes: &[u8]) -> usize
    requires { at + 2 * length bytes.now ≤ length output.old }
    ensures { (output.new ≡ overwrite output.old at (hex bytes.now)) × (result ≡ at + 2 * length bytes.now) }
{
    let end = at + 2 * bytes.len();
    let _ = hex::encode_to_slice(bytes, &mut output[at..end]);
    end
}

// Prints the line of an answer at the front of the output, and answers how many bytes it has. SHAPE where it does not fit.
pub fn print(
    answer: Result<usize, Refusal>,
    bytes: &[u8],
    output: &mut [u8],
) -> Result<usize, Refusal>
    ensures { (coded result ≡ print_answer (reply_line (coded answer) bytes.now) output.old)
        × (output.new ≡ printed (reply_line (coded answer) bytes.now) output.old) }
{
    let mut number_text = Buffer::new();
    let mut count_text = Buffer::new();
    let number = number_text.format(answer::number(answer)).as_bytes();
    let count = count_text.format(answer::count(answer)).as_bytes();
    // All of the line but the bytes.
    let frame = number.len() + count.len() + 3;
    if output.len() < frame || (output.len() - frame) / 2 < bytes.len() {
        return Err(Refusal::Shape);
    }
    let end = put(output, 0, number);
    let end = put(output, end, b",");
    let end = put(output, end, count);
    let end = put(output, end, b",");
    let end = put_hex(output, end, bytes);
    let end = put(output, end, b"\n");
    Ok(end)
}
