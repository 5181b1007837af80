// Trip lists: a line of text for each trip, in the order of their minutes. A reader and a cursor.
//
// Nothing here knows of the store: a list is bytes, wherever they come from.
#![tactic(auto)]

ghost use Rattle.std.specs.Prelude.{◌≡◌, ◌≤◌, ◌&&◌, length, not, position, ◌==◌, nat_le};
ghost use Rattle.answer.specs.Coded.{coded};
ghost use Rattle.text.specs.Marks.{LF, comma};
ghost use Rattle.trip_list.specs.Trip.{greatest_number, is_driver_byte};
ghost use Rattle.trip_list.specs.List.{greatest_list, list_answer};
ghost use Rattle.trip_list.specs.Lookup.{looked, read_trip, next_trip};
ghost use Rattle.trip_list.specs.Steps.{told, line_given};
ghost use Rattle.trip_list.specs.Scanner.{NumberRead, DriverRead, LineRead, LineAt, trip_at};

use answer::Refusal;

// The longest list.
pub const MAX_LIST: usize = 4096;

// The greatest minute and the most metres.
const MAX_NUMBER: usize = 4294967295;

// ---- the fields of a line

// A number in front of a text, with a comma after it: its value, and how many digits it has.
#[derive(Clone, Copy)]
struct Number {
    value: usize,
    digits: usize,
}

// Whether so many digits, at most ten, of this value are a number, with the comma after it.
fn number_ends(value: usize, digits: usize, mark: u8) -> bool
    ensures { result ≡ (nat_le 1 digits && (nat_le value greatest_number && mark == comma)) }
{
    digits >= 1 && value <= MAX_NUMBER && mark == b','
}

// Apart, as `driver_in_front` is: inlined, its loop keeps count of more numbers, and reading a line takes a tenth longer.
#[inline(never)]
fn number_in_front(text: &[u8]) -> Option<Number>
    ensures { NumberRead text.now result }
{
    let front = words::number(text);
    let mut value = front.value;
    // The digits past the first eight bytes, by their index, which is how many stand before.
    for i in front.count..text.len() {
        let byte = text[i];
        if !byte.is_ascii_digit() {
            return number_ends(value, i, byte).then_some(Number { value, digits: i });
        }
        if i == 10 {
            return None;
        }
        value = 10 * value + usize::from(byte - b'0');
    }
    None
}

#[tactic(auto, unfolding(crate::specs::Trip::is_driver_byte))]
fn is_driver_byte(c: u8) -> bool
    ensures { result ≡ is_driver_byte c }
{
    c.is_ascii_digit() || c.is_ascii_uppercase()
}

// Where the letters and digits in front of a text end, if a byte ends them.
fn driver_end(text: &[u8]) -> Option<usize>
    ensures { result ≡ position (λ c. not (is_driver_byte c)) text.now }
{
    text.iter().position(|&byte| !is_driver_byte(byte))
}

// Whether so many letters and digits are a driver, with the LF after it.
fn driver_ends(letters: usize, mark: u8) -> bool
    ensures { result ≡ (nat_le 1 letters && (nat_le letters 16 && mark == LF)) }
{
    matches!(letters, 1..=16) && mark == b'\n'
}

// The number of letters of a driver in front of a text, with LF after it.
#[inline(never)]
fn driver_in_front(text: &[u8]) -> Option<usize>
    ensures { DriverRead text.now result }
{
    let front = words::letters(text);
    let letters = front + driver_end(&text[front..])?;
    driver_ends(letters, text[letters]).then_some(letters)
}

// ---- one line

// A line of the form.
#[derive(Clone, Copy)]
pub struct Line {
    pub metres: usize,
    // The length of the driver.
    pub letters: usize,
    // The fields that a loop needs which copies lines stand together.
    pub minute: usize,
    // Where in the line the metres and the driver begin.
    pub second: usize,
    pub driver: usize,
    // With its LF.
    pub length: usize,
}

fn line_in_front(text: &[u8]) -> Option<Line>
    ensures { LineRead text.now result }
{
    let minute = number_in_front(text)?;
    let second = minute.digits + 1;
    let metres = number_in_front(&text[second..])?;
    let driver = second + metres.digits + 1;
    let letters = driver_in_front(&text[driver..])?;
    Some(Line {
        minute: minute.value,
        metres: metres.value,
        second,
        driver,
        letters,
        length: driver + letters + 1,
    })
}

// The line that starts at index `at`, whose minute is to be at least `least`. Where the list ends at `at` or before, no line has the
// form. The length of the list is not looked at.
pub fn line_at(list: &[u8], at: usize, least: usize) -> Result<Line, Refusal>
    ensures { told result ≡ line_given list.now at least }
{
    let Some(line) = list.get(at..).and_then(line_in_front) else {
        return Err(Refusal::TripForm);
    };
    if line.minute < least {
        return Err(Refusal::TripOrder);
    }
    Ok(line)
}

// ---- the cursor

// A trip of a list, in numbers, as C gets it. Its driver lies in the list: from this index on, so many bytes.
#[derive(Clone, Copy)]
pub struct Trip {
    pub minute: u32,
    pub metres: u32,
    pub driver: u32,
    pub letters: u32,
}

// What the reader and the cursor give: a count, and a trip if there is one.
#[derive(Clone, Copy)]
pub struct Lookup {
    pub count: usize,
    pub trip: Option<Trip>,
}

// The trip of a line that starts at index `at`.
fn trip_of(list: &[u8], at: usize, line: Line) -> Trip
    requires { LineAt list.now at line × (length list.now ≤ greatest_list) }
    ensures { result ≡ trip_at list.now at }
{
    Trip {
        minute: line.minute as u32,
        metres: line.metres as u32,
        driver: (at + line.driver) as u32,
        letters: line.letters as u32,
    }
}

// The trip of the line that starts at index `at`, whose minute is to be at least `least`. The count is the index after that line; it
// is 0 where the list ends at `at` or before.
pub fn next_trip(list: &[u8], at: usize, least: usize) -> Result<Lookup, Refusal>
    ensures { looked list.now result ≡ next_trip list.now at least }
{
    if list.len() > MAX_LIST {
        return Err(Refusal::Range);
    }
    if at >= list.len() {
        return Ok(Lookup {
            count: 0,
            trip: None,
        });
    }
    let line = line_at(list, at, least)?;
    Ok(Lookup {
        count: at + line.length,
        trip: Some(trip_of(list, at, line)),
    })
}

// ---- the reader

// Looks a trip up by its place, counted from 0, and counts the trips.
pub fn read(list: &[u8], place: usize) -> Result<Lookup, Refusal>
    ensures { looked list.now result ≡ read_trip list.now place }
{
    if list.len() > MAX_LIST {
        return Err(Refusal::Range);
    }
    let mut found = Lookup {
        count: 0,
        trip: None,
    };
    // Each line begins where the one before it ends.
    let mut at = 0;
    let mut least = 0;
    while at < list.len() {
        let line = line_at(list, at, least)?;
        if found.count == place {
            found.trip = Some(trip_of(list, at, line));
        }
        found.count += 1;
        at += line.length;
        least = line.minute + 1;
    }
    Ok(found)
}

// The number of trips of a list, or its refusal.
#[tactic(auto, unfolding(crate::specs::Lookup::read_trip))]
pub fn check(list: &[u8]) -> Result<usize, Refusal>
    ensures { coded result ≡ list_answer list.now }
{
    read(list, 0).map(|found| found.count)
}
