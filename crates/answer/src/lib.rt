// The answer of a call is a `Result<usize, Refusal>`: done with a count, or refused for one of thirteen reasons.
//
// `coded` in specs/ gives each case its number and its count; every contract of the store speaks of answers through it.
#![tactic(auto)]

ghost use Rattle.std.specs.Prelude.{◌≡◌};
ghost use Rattle.answer.specs.Coded.{coded, coded_refusal};

// The refusals, in the order of their numbers. A call on files tests the first nine in this order.
#[derive(Clone, Copy, Debug, PartialEq, Eq)]
pub enum Refusal {
    // The session line has none of the forms.
    Line,
    // A borrowed slice has the wrong length.
    Shape,
    // A stored size is above the greatest file size.
    Media,
    // The cache state is not sound, or the sizes of a file are not in their order.
    Books,
    // The device is not mounted.
    Down,
    // The file number is above the last file.
    NoFile,
    // A position, a size, or a position with the length after it is above the greatest file size; or a TRIM would grow the file; or a
    // trip list is too long.
    Range,
    // The first page of a write is not cached, and no page frame is free for it.
    NoRoom,
    // The budget paid for this many media writes, and more were needed.
    Cut(usize),
    // A line of a trip list lacks the form.
    TripForm,
    // The minutes of a trip list do not rise at a line.
    TripOrder,
    // Two trip lists have a trip of the same minute, with other metres or another driver.
    TripConflict,
    // Two trip lists joined are longer than a list may be.
    TripsTooLong,
}

// The number of a refusal: 1 to 11, 17 and 18.
impl From<Refusal> for u8 {
    ghost from_gives = { λ refusal n. n ≡ (coded_refusal refusal).number };

    fn from(refusal: Refusal) -> u8 {
        match refusal {
            Refusal::Line => 1,
            Refusal::Shape => 2,
            Refusal::Media => 3,
            Refusal::Books => 4,
            Refusal::Down => 5,
            Refusal::NoFile => 6,
            Refusal::Range => 7,
            Refusal::NoRoom => 8,
            Refusal::Cut(_) => 9,
            Refusal::TripForm => 10,
            Refusal::TripOrder => 11,
            Refusal::TripConflict => 17,
            Refusal::TripsTooLong => 18,
        }
    }
}

// The number of an answer: 0 where it is done, and that of the refusal where it is not.
pub fn number(a: Result<usize, Refusal>) -> u8
    ensures { result ≡ (coded a).number }
{
    match a {
        Ok(_) => 0,
        Err(refusal) => refusal.into(),
    }
}

// The count of an answer: 0 for every refusal but CUT.
pub fn count(a: Result<usize, Refusal>) -> usize
    ensures { result ≡ (coded a).count }
{
    match a {
        Ok(n) | Err(Refusal::Cut(n)) => n,
        Err(_) => 0,
    }
}
