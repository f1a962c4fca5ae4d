// One word of a line of numbers.
ghost use Rattle.std.specs.Prelude.{◌≡◌};
ghost use Rattle.fields.specs.Between.Fields.{class_of, is_number, word_reads};
ghost use Rattle.fields.specs.Between.Reading.{grown, end_byte, IsBefore, ReadsDigits, ReadsWord};

use crate::class::{Class, classify};
use crate::limits::{ANY, MOST};

// What ends a word.
#[derive(Clone, Copy)]
pub enum End {
    Space,
    LineEnd,
}

impl End {
    // The class of the byte that it is.
    #[tactic(auto, unfolding(crate::specs::Between::Fields::class_of))]
    fn class(self) -> Class
        ensures { result ≡ class_of (end_byte self) }
    {
        match self {
            End::Space => Class::Space,
            End::LineEnd => Class::LineEnd,
        }
    }
}

// A word: its number, and what stands behind it.
#[derive(Clone, Copy)]
pub struct Word<'a> {
    pub value: u32,
    pub rest: &'a [u8],
}

// The word with this number, where `rest` begins with what ends it.
fn word_before(value: u32, rest: &[u8], end: End) -> Option<Word>
    ensures { IsBefore value rest.now end result }
{
    match rest.split_first() {
        Some((byte, rest)) if classify(*byte) == end.class() => Some(Word { value, rest }),
        _ => None,
    }
}

// The number that one more digit makes.
fn grow(value: u32, digit: u8) -> u32
    ensures { result ≡ grown value digit }
{
    value
        .saturating_mul(10)
        .saturating_add(u32::from(digit.saturating_sub(b'0')))
        .min(MOST)
}

// The digits in front.
fn read_digits(bytes: &[u8]) -> Word
    ensures { ReadsDigits bytes.now result }
{
    let mut value = 0;
    let mut rest = bytes;
    while let Some((digit, after)) = rest.split_first() {
        if !digit.is_ascii_digit() {
            break;
        }
        value = grow(value, *digit);
        rest = after;
    }
    Word { value, rest }
}

// The word in front, if it is a number with this end. A number that begins with a zero ends behind it.
pub fn read_number(bytes: &[u8], end: End) -> Option<Word>
    ensures { ReadsWord is_number bytes.now end result }
{
    let Some((first, rest)) = bytes.split_first() else {
        return None;
    };
    if *first == b'0' {
        return word_before(0, rest, end);
    }
    if first.is_ascii_digit() {
        let digits = read_digits(bytes);
        return word_before(digits.value, digits.rest, end);
    }
    None
}

// The word in front, if it is a number or −1 with this end.
pub fn read_word(bytes: &[u8], end: End) -> Option<Word>
    ensures { ReadsWord word_reads bytes.now end result }
{
    let Some(rest) = bytes.strip_prefix(b"-") else {
        return read_number(bytes, end);
    };
    let Some(rest) = rest.strip_prefix(b"1") else {
        return None;
    };
    word_before(ANY, rest, end)
}
