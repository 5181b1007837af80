// The runs of digits, of zeros and of letters in front of a text, eight bytes at once.
#![tactic(auto)]

ghost use Rattle.std.specs.Prelude.{◌≡◌, ◌/◌, [], map, take, MatchOption, bit_and};
ghost use Rattle.std.specs.Int.Count.{count_trailing_zeros};
ghost use Rattle.text.specs.Ascii.{is_capital_or_digit};
ghost use Rattle.text.specs.Decimal.{is_digit, is_zero, value};
ghost use Rattle.text.specs.Runs.{run};
ghost use Rattle.words.specs.Words.{bytes_of, first_eight, in_base};
ghost use Rattle.words.specs.Tests.{no_digit, no_capital};

// A word is eight bytes, the first lowest. In each of them: the digit 0, and the highest bit.
const ZEROS: u64 = 0x3030303030303030;

const HIGHEST: u64 = 0x8080808080808080;

// The highest bit of a byte is set exactly where it is no digit, up to the first byte of 128 or more.
#[tactic(auto, unfolding(crate::specs::Tests::no_digit))]
fn no_digit(word: u64) -> u64
    ensures { result ≡ no_digit 8 word }
{
    word | (word ^ ZEROS).wrapping_add(0x7676767676767676)
}

// The same where it is no capital letter.
#[tactic(auto, unfolding(crate::specs::Tests::no_capital))]
fn no_capital(word: u64) -> u64
    ensures { result ≡ no_capital 8 word }
{
    let letter = word ^ 0x4040404040404040;
    let above = letter.wrapping_add(0x6565656565656565);
    let below = letter.wrapping_add(0x7f7f7f7f7f7f7f7f) ^ HIGHEST;
    word | above | below
}

// The bytes below the one with the lowest set bit; all eight where none is set.
fn bytes_below(marks: u64) -> usize
    ensures { result ≡ count_trailing_zeros 64 marks / 8 }
{
    (marks.trailing_zeros() / 8) as usize
}

fn digits_in(word: u64) -> usize
    ensures { result ≡ run is_digit (bytes_of word) }
{
    bytes_below(no_digit(word) & HIGHEST)
}

fn zeros_in(word: u64) -> usize
    ensures { result ≡ run is_zero (bytes_of word) }
{
    bytes_below(word ^ ZEROS)
}

fn letters_in(word: u64) -> usize
    ensures { result ≡ run is_capital_or_digit (bytes_of word) }
{
    bytes_below(no_digit(word) & no_capital(word) & HIGHEST)
}

// The value of eight digits, where a byte 0 counts as the digit 0: neighbours are joined three times.
fn value_in(word: u64) -> u64
    ensures { result ≡ in_base 10 0 (map (λ b. bit_and b 15) (bytes_of word)) }
{
    let digits = word & 0x0f0f0f0f0f0f0f0f;
    let pairs = (digits & 0x00ff00ff00ff00ff) * 10 + ((digits >> 8) & 0x00ff00ff00ff00ff);
    let fours = (pairs & 0x0000ffff0000ffff) * 100 + ((pairs >> 16) & 0x0000ffff0000ffff);
    (fours & 0x00000000ffffffff) * 10000 + ((fours >> 32) & 0x00000000ffffffff)
}

// ---- texts

// The first eight bytes of a text as a word. None of a text that has fewer bytes.
fn first_word(text: &[u8]) -> Option<u64>
    ensures { MatchOption result (first_eight text.now ≡ []) (λ word. bytes_of word ≡ first_eight text.now) }
{
    let bytes = text.first_chunk()?;
    Some(u64::from_le_bytes(*bytes))
}

// The digits in front of the first eight bytes of a text: how many they are, and their value. None of a text that has fewer bytes.
#[derive(Clone, Copy)]
pub struct Digits {
    pub count: usize,
    pub value: usize,
}

#[tactic(auto, unfolding(text::specs::Runs::run))]
pub fn number(text: &[u8]) -> Digits
    ensures { (result.count ≡ run is_digit (first_eight text.now)) × (result.value ≡ value (take result.count text.now)) }
{
    let Some(word) = first_word(text) else {
        return Digits { count: 0, value: 0 };
    };
    let count = digits_in(word);
    if count == 0 {
        return Digits { count, value: 0 };
    }
    Digits {
        count,
        value: value_in(word << (64 - 8 * count)) as usize,
    }
}

// The zeros in front of the first eight bytes of a text. None of a text that has fewer bytes.
#[tactic(auto, unfolding(text::specs::Runs::run))]
pub fn zeros(text: &[u8]) -> usize
    ensures { result ≡ run is_zero (first_eight text.now) }
{
    first_word(text).map_or(0, zeros_in)
}

// The capital letters and digits in front of the first eight bytes of a text. None of a text that has fewer bytes.
#[tactic(auto, unfolding(text::specs::Runs::run))]
pub fn letters(text: &[u8]) -> usize
    ensures { result ≡ run is_capital_or_digit (first_eight text.now) }
{
    first_word(text).map_or(0, letters_in)
}
