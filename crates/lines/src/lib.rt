// Lines of text on a page: lent bytes that take text from the front on. What does not fit is dropped, so that no
// method asks for room.
#![tactic(auto)]

ghost use Rattle.std.specs.Prelude.{◌≡◌, ◌≤◌, length, take};

use access::put_from;

// What begins a number that does not begin its line, and what ends a line.
const SPACE: &[u8] = b" ";

const LINE_END: &[u8] = b"\n";

// The most digits of a number.
const DIGITS: usize = 20;

// Lent bytes, of which those before `end` hold text.
#[derive(Drop)]
pub struct Page<'a> {
    pub bytes: &'a mut [u8],
    pub end: usize,
    ghost within: { end ≤ length bytes.now },
}

impl<'a> Page<'a> {
    ghost use Rattle.std.specs.Prelude.{List, ℕ, []};
    ghost use Rattle.std.specs.List.{AllZip};
    ghost use Rattle.lines.specs.Lines.{numeral, spaced, line, row};
    ghost use Rattle.lines.specs.Puts.{Puts};

    // A page with no text yet.
    pub fn new(bytes: &'a mut [u8]) -> Page<'a>
        ensures same { result.bytes.ghost_name ≡ bytes.entry.ghost_name }
        ensures kept { result.bytes.now ≡ bytes.old }
        ensures empty { result.end ≡ 0 }
    {
        Page { bytes, end: 0 }
    }

    // What has been put.
    pub fn written(&self) -> &[u8]
        ensures { result.now ≡ take self.now.end self.now.bytes.now }
    {
        &self.bytes[..self.end]
    }

    // Puts a text.
    pub fn text(&mut self, text: &[u8])
        ensures { Puts text.now self.old self.new }
    {
        put_from(self.bytes, self.end, text);
        self.end += text.len().min(self.bytes.len() - self.end);
    }

    // Puts a number in decimal. The digits come from `io`: of `write!` nothing is known where its writer fails, and none
    // is known not to.
    pub fn number(&mut self, number: u64)
        ensures { Puts (numeral number) self.old self.new }
    {
        let mut digits = [0; DIGITS];
        let n = io::decimal(number, &mut digits);
        self.text(&digits[..n]);
    }

    // Puts numbers, each behind a space.
    pub fn spaced<T: Copy + Into<u64>>(&mut self, numbers: &[T])
        ensures { (xs : List ℕ) × AllZip T.converts numbers.now xs
            × Puts (spaced xs) self.old self.new }
    {
        for number in numbers {
            self.text(SPACE);
            self.number((*number).into());
        }
    }

    // Puts numbers, each behind a space, and ends the line.
    pub fn end_line<T: Copy + Into<u64>>(&mut self, numbers: &[T])
        ensures { (xs : List ℕ) × AllZip T.converts numbers.now xs
            × Puts (line [] xs) self.old self.new }
    {
        self.spaced(numbers);
        self.text(LINE_END);
    }

    // Puts a line of a word and numbers.
    pub fn line(&mut self, word: &[u8], numbers: &[u64])
        ensures { Puts (line word.now numbers.now) self.old self.new }
    {
        self.text(word);
        self.end_line(numbers);
    }

    // Puts a line of numbers.
    pub fn row(&mut self, first: u64, others: &[u64])
        ensures { Puts (row first others.now) self.old self.new }
    {
        self.number(first);
        self.end_line(others);
    }
}
