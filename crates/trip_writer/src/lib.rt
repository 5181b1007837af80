// The writer of trip lists: a list in its one spelling, and two lists joined into one.
#![tactic(auto)]

ghost use Rattle.std.specs.Prelude.{◌≡◌, ◌++◌, ◌+◌, ◌-◌, ◌*◌, ◌≤◌, ◌<◌, min, length, take, drop};
ghost use Rattle.std.specs.List.{prefix_len};
ghost use Rattle.answer.specs.Coded.{coded};
ghost use Rattle.answer.specs.Admission.{if_done};
ghost use Rattle.memory.specs.Bytes.{part, overwrite};
ghost use Rattle.text.specs.Decimal.{is_zero, leading_zeros};
ghost use Rattle.trip_list.specs.List.{greatest_list, list_answer, write_answer, written};
ghost use Rattle.trip_list.specs.Lines.{first_trip};
ghost use Rattle.trip_list.specs.Scanner.{greatest_line, LineAt};
ghost use Rattle.trip_join.specs.Join.{same_rest, join_answer, joined};
ghost use Rattle.trip_writer.specs.Spelling.{spelled_line, KeptAt};
ghost use Rattle.trip_writer.specs.Joining.{no_minute, minute_of, SideAt, Placed, Advanced, Joining};

use answer::Refusal;
use trip_list::{Line, MAX_LIST};

// The longest line: two numbers, a driver, and a mark after each.
const MAX_LINE: usize = 39;

// The longest list, and after it the longest line twice: a line is copied as two pieces of that length.
const ROOM: usize = MAX_LIST + 2 * MAX_LINE;

// ---- one line

// The zeros in front of some digits.
fn zeros_before(digits: &[u8]) -> usize
    ensures { result ≡ prefix_len is_zero digits.now }
{
    digits.iter().take_while(|c| **c == b'0').count()
}

// The leading zeros of so many digits. The last digit is none of them.
fn leading_zeros(text: &[u8], digits: usize) -> usize
    requires { digits ≤ length text.now }
    ensures { result ≡ leading_zeros (take digits text.now) }
{
    let last = digits.saturating_sub(1);
    let passed = words::zeros(text).min(last);
    passed + zeros_before(&text[passed..last])
}

// Where in the list the digits begin that a spelling keeps, of the minute and of the metres.
#[derive(Clone, Copy)]
struct Kept {
    minute: usize,
    metres: usize,
}

// The bytes of the list from `first` on, up to as many as the longest line has, are laid over the output from `end` on.
fn put_window(output: &mut [u8], end: usize, list: &[u8], first: usize)
    requires { (first ≤ length list.now) × (end + greatest_line ≤ length output.old) }
    ensures { output.new ≡ overwrite output.old end (part list.now first greatest_line) }
{
    memory::copy_array::<MAX_LINE>(&mut output[end..], &list[first..]);
}

// ---- lines of a list

// Above every minute: the limit where the other list has no line left.
const NO_MINUTE: usize = 4294967296;

// A list that is gone through: the index of its next line, and that line. None is left where the list ends there, or its line is
// refused.
#[derive(Clone, Copy)]
struct Side<'a> {
    list: &'a [u8],
    at: usize,
    line: Option<Line>,
}

impl<'a> Side<'a> {
    // At an index, whose line is to have a minute of at least `least`.
    fn new(list: &'a [u8], at: usize, least: usize) -> Side<'a>
        ensures { SideAt list.now at least result }
    {
        Side {
            list,
            at,
            line: trip_list::line_at(list, at, least).ok(),
        }
    }

    // After its next line.
    fn after(self, line: Line) -> Side<'a>
        requires { LineAt self.list.now self.at line }
        ensures { SideAt self.entry.list.now (self.entry.at + line.length) (line.minute + 1) result }
    {
        Side::new(self.list, self.at + line.length, line.minute + 1)
    }

    // The minute of its next line, or one above all others: a limit, which an Option would put below all.
    fn minute(self) -> usize
        ensures { result ≡ minute_of self.entry.line }
    {
        self.line.map_or(NO_MINUTE, |line| line.minute)
    }

    // The driver of its next line.
    fn driver(self, line: Line) -> &'a [u8]
        requires { LineAt self.list.now self.at line }
        ensures { result.now ≡ (first_trip (drop self.entry.at self.entry.list.now)).driver }
    {
        let start = self.at + line.driver;
        &self.list[start..start + line.letters]
    }

    fn kept_from(self, line: Line) -> Kept
        requires { LineAt self.list.now self.at line }
        ensures { KeptAt self.entry.list.now self.entry.at result }
    {
        let second = self.at + line.second;
        Kept {
            minute: self.at + leading_zeros(&self.list[self.at..], line.second - 1),
            metres: second + leading_zeros(&self.list[second..], line.driver - line.second - 1),
        }
    }

    // The one spelling of its next line is laid over the output from `end` on. What stands after it there may change too. The index
    // after it comes back.
    fn put_line(self, line: Line, output: &mut [u8], end: usize) -> usize
        requires { LineAt self.list.now self.at line × (end + 2 * greatest_line ≤ length output.old) }
        ensures { (result ≡ end + length (spelled_line self.entry.list.now self.entry.at))
            × (take result output.new ≡ take end output.old ++ spelled_line self.entry.list.now self.entry.at) }
    {
        let kept = self.kept_from(line);
        let first = kept.minute;
        let second = self.at + line.second;
        let third = kept.metres;
        let next = self.at + line.length;
        let middle = end + (second - first);
        // The second window is laid over what the first has beyond its piece.
        put_window(output, end, self.list, first);
        put_window(output, middle, self.list, third);
        middle + (next - third)
    }

    // The same, where the spelling ends within 4,096 bytes. The index after it comes back in any case; past 4,096 bytes nothing else is
    // told.
    fn put_within(self, line: Line, output: &mut [u8], end: usize) -> usize
        requires { LineAt self.list.now self.at line × (greatest_list + 2 * greatest_line ≤ length output.old) × (end ≤ 2 * greatest_list) }
        ensures { (result ≡ end + length (spelled_line self.entry.list.now self.entry.at))
            × (result ≤ greatest_list → take result output.new ≡ take end output.old ++ spelled_line self.entry.list.now self.entry.at) }
    {
        let start = end.min(MAX_LIST);
        end + (self.put_line(line, output, start) - start)
    }
}

// Spells the lines of a side whose minutes are below `limit`, from `end` on. The side after them comes back, and the index in the
// output after them.
fn spell_below<'a>(
    mut side: Side<'a>,
    limit: usize,
    output: &mut [u8],
    mut end: usize,
) -> (Side<'a>, usize)
    requires { Placed side.list.now output.old side end × (limit ≤ no_minute) }
    ensures { Advanced side.entry.list.now limit output.old side.entry end output.new result.0 result.1 × (limit ≤ minute_of result.0.line) }
{
    while let Some(line) = side.line
        && line.minute < limit
    {
        end = side.put_within(line, output, end);
        side = side.after(line);
    }
    (side, end)
}

// ---- two lists

// Whether the next lines of two sides have the same metres and driver.
fn same_rest(first: Side, a: Line, second: Side, b: Line) -> bool
    requires { LineAt first.list.now first.at a × LineAt second.list.now second.at b }
    ensures { result ≡ same_rest (first_trip (drop first.entry.at first.entry.list.now)) (first_trip (drop second.entry.at second.entry.list.now)) }
{
    a.metres == b.metres && first.driver(a) == second.driver(b)
}

// How far two lists are joined: how many bytes the joined list has up to there, and whether the lists agree up to there. The bytes are
// counted on where they do not.
#[derive(Clone, Copy)]
struct Stage<'a> {
    first: Side<'a>,
    second: Side<'a>,
    end: usize,
    agree: bool,
}

// The next trips of the join: those of one list that come before the next of the other. Of two of one minute the second list's is
// left out.
fn join_next<'a>(s: Stage<'a>, output: &mut [u8]) -> Stage<'a>
    requires { Joining s.first.list.now s.second.list.now output.old s × (min (minute_of s.first.line) (minute_of s.second.line) < no_minute) }
    ensures { Joining s.entry.first.list.now s.entry.second.list.now output.new result
        × (s.entry.first.at + s.entry.second.at < result.first.at + result.second.at) }
{
    if let (Some(a), Some(b)) = (s.first.line, s.second.line)
        && a.minute == b.minute
    {
        return Stage {
            second: s.second.after(b),
            agree: s.agree && same_rest(s.first, a, s.second, b),
            ..s
        };
    }
    let first = s.first.minute();
    let second = s.second.minute();
    // One call of spell_below for both lists.
    let swap = second < first;
    let (side, limit) = if swap {
        (s.second, first)
    } else {
        (s.first, second)
    };
    let (side, end) = spell_below(side, limit, output, s.end);
    if swap {
        Stage {
            second: side,
            end,
            ..s
        }
    } else {
        Stage {
            first: side,
            end,
            ..s
        }
    }
}

// The join of two lists is spelled at the front of the output, as far as it is within 4,096 bytes; it is counted in any case. Each
// list is gone through to its end or to the first line that is refused.
fn join_lines<'a>(first: &'a [u8], second: &'a [u8], output: &mut [u8]) -> Stage<'a>
    requires { (length first.now ≤ greatest_list) × (length second.now ≤ greatest_list) × (greatest_list + 2 * greatest_line ≤ length output.old) }
    ensures { Joining first.now second.now output.new result × (no_minute ≤ min (minute_of result.first.line) (minute_of result.second.line)) }
{
    let mut s = Stage {
        first: Side::new(first, 0, 0),
        second: Side::new(second, 0, 0),
        end: 0,
        agree: true,
    };
    while s.first.line.is_some() || s.second.line.is_some() {
        s = join_next(s, output);
    }
    s
}

// ---- the calls

// Writes the one spelling of a list to the front of a buffer of 4,096 bytes, and counts its bytes. It is spelled into an array
// first: a bad line must leave the buffer as it came. Joined with the empty list, a list gives its one spelling.
pub fn write(list: &[u8], buffer: &mut [u8]) -> Result<usize, Refusal>
    ensures { (coded result ≡ write_answer list.now buffer.old)
        × (buffer.new ≡ written list.now buffer.old) }
{
    if buffer.len() != MAX_LIST {
        return Err(Refusal::Shape);
    }
    if list.len() > MAX_LIST {
        return Err(Refusal::Range);
    }
    let mut spelled = [0u8; ROOM];
    let s = join_lines(list, &[], &mut spelled);
    if s.first.at < list.len() {
        return trip_list::check(list);
    }
    memory::copy(buffer, &spelled[..s.end]);
    Ok(s.end)
}

// The refusal of two lists of which one is refused: the first one's before the second one's.
fn refused(first: &[u8], second: &[u8]) -> Result<usize, Refusal>
    ensures { coded result ≡ if_done (list_answer first.now) (list_answer second.now) (list_answer first.now) }
{
    trip_list::check(first)?;
    trip_list::check(second)
}

// Writes the join of two lists, in its one spelling, to the front of a buffer of 4,096 bytes, and counts its bytes. It is spelled into
// an array first, as a list is that is written.
pub fn join<'a>(first: &'a [u8], second: &'a [u8], buffer: &mut [u8]) -> Result<usize, Refusal>
    ensures { (coded result ≡ join_answer first.now second.now buffer.old)
        × (buffer.new ≡ joined first.now second.now buffer.old) }
{
    if buffer.len() != MAX_LIST {
        return Err(Refusal::Shape);
    }
    if first.len() > MAX_LIST || second.len() > MAX_LIST {
        return refused(first, second);
    }
    let mut spelled = [0u8; ROOM];
    let s = join_lines(first, second, &mut spelled);
    if s.first.at < first.len() || s.second.at < second.len() {
        return refused(first, second);
    }
    if !s.agree {
        return Err(Refusal::TripConflict);
    }
    if s.end > MAX_LIST {
        return Err(Refusal::TripsTooLong);
    }
    memory::copy(buffer, &spelled[..s.end]);
    Ok(s.end)
}
