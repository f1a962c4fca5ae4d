// The reading of a text, byte by byte.
ghost use Rattle.std.specs.Prelude.{◌≡◌, false, List, [], ◌∷◌, ℕ, ◌+◌, ◌<◌, ◌^◌, length};
ghost use Rattle.text.specs.Text.{blank as is_blank, word_from, found_in, reading_of};
ghost use Rattle.text.specs.Between.Reading.{ends_field, word_behind, still, at_blank, at_comment, at_word};
ghost use Rattle.text.specs.Between.Reading.{Reads, Starts, Stores};

use crate::limits::TEXT;

// What counts in a text.
const LINE_END: u8 = b'\n';

const SPACE: u8 = b' ';

const COMMENT: u8 = b'#';

// Where a reader stands: in white space, in a comment, or behind the digits of a word with the value that they have so
// far.
#[derive(Clone, Copy, PartialEq, Eq, Debug)]
pub enum Mode {
    Blank,
    Comment,
    Word(u32),
}

// Why a text is no text of words: the line of a field that is no word, or of a word for which there is no room; or it
// is too long to be read.
#[derive(Clone, Copy, PartialEq, Eq, Debug)]
pub enum TextError {
    NoWord(u64),
    NoRoom(u64),
    Long,
}

// A reader: the number of its line, and how many words it has stored. Those are lent to each step and not held here, so
// that the step's contract says what it left of them.
#[derive(Clone, Copy, PartialEq, Eq, Debug)]
pub struct Reader {
    pub mode: Mode,
    pub line: u64,
    pub count: usize,
}

// White space within a line.
fn blank(byte: u8) -> bool
    ensures { result ≡ is_blank byte }
{
    matches!(byte, SPACE | b'\t' | b'\r')
}

// Whether a field is over before this byte.
fn ends_field(byte: u8) -> bool
    ensures { result ≡ ends_field byte }
{
    matches!(byte, LINE_END | COMMENT) || blank(byte)
}

// The value of digits with this byte behind them, if it is a digit and the value fits a word.
fn with_digit(value: u32, byte: u8) -> Option<u32>
    ensures { (rest : List ℕ) → word_behind result rest ≡ word_from value (byte ∷ rest) }
{
    if !byte.is_ascii_digit() {
        return None;
    }
    value.checked_mul(10)?.checked_add(u32::from(byte - b'0'))
}

// Each step takes a reader on, or tells why it stops.
impl Reader {
    // A reader at the beginning of a text.
    fn start() -> Reader
        ensures { Starts result }
    {
        Reader {
            mode: Mode::Blank,
            line: 1,
            count: 0,
        }
    }

    // Goes on to the next line.
    fn next_line(self) -> Reader
        requires { self.line + 1 < 2 ^ 64 }
        ensures { result ≡ at_blank (self.line + 1) self.count }
    {
        Reader {
            mode: Mode::Blank,
            line: self.line + 1,
            ..self
        }
    }

    // Takes one more byte of a field whose digits so far have this value.
    fn grow(self, value: u32, byte: u8) -> Result<Reader, TextError>
        requires { ends_field byte ≡ false }
        ensures { (ws : List ℕ) → Reads (at_word value self.line self.count) ws (byte ∷ []) result ws }
    {
        let grown = with_digit(value, byte).ok_or(TextError::NoWord(self.line))?;
        Ok(Reader {
            mode: Mode::Word(grown),
            ..self
        })
    }

    // Takes one more byte in white space.
    fn skip(self, byte: u8) -> Result<Reader, TextError>
        requires { self.line + 1 < 2 ^ 64 }
        ensures { (ws : List ℕ) → Reads (at_blank self.line self.count) ws (byte ∷ []) result ws }
    {
        if byte == LINE_END {
            return Ok(self.next_line());
        }
        if byte == COMMENT {
            return Ok(Reader {
                mode: Mode::Comment,
                ..self
            });
        }
        if blank(byte) {
            return Ok(Reader {
                mode: Mode::Blank,
                ..self
            });
        }
        self.grow(0, byte)
    }

    // Takes one more byte in a comment.
    fn pass(self, byte: u8) -> Reader
        requires { self.line + 1 < 2 ^ 64 }
        ensures { (ws : List ℕ) → Reads (at_comment self.line self.count) ws (byte ∷ []) (Ok result) ws }
    {
        if byte == LINE_END {
            return self.next_line();
        }
        Reader {
            mode: Mode::Comment,
            ..self
        }
    }

    // Stores the word of a field that is over.
    fn store(self, value: u32, words: &mut [u32]) -> Result<Reader, TextError>
        ensures { Stores self.line self.count value words.old result words.new }
    {
        if words.len() <= self.count {
            return Err(TextError::NoRoom(self.line));
        }
        words[self.count] = value;
        Ok(Reader {
            mode: Mode::Blank,
            count: self.count + 1,
            ..self
        })
    }

    // Takes one more byte.
    fn feed(self, byte: u8, words: &mut [u32]) -> Result<Reader, TextError>
        requires { self.line + 1 < 2 ^ 64 }
        ensures { Reads self words.old (byte ∷ []) result words.new }
    {
        match self.mode {
            Mode::Blank => self.skip(byte),
            Mode::Comment => Ok(self.pass(byte)),
            Mode::Word(value) if ends_field(byte) => self.store(value, words)?.skip(byte),
            Mode::Word(value) => self.grow(value, byte),
        }
    }

    // Takes the next bytes of a text.
    fn feed_all(self, bytes: &[u8], words: &mut [u32]) -> Result<Reader, TextError>
        requires { self.line + length bytes.now < 2 ^ 64 }
        ensures { Reads self words.old bytes.now result words.new }
    {
        let mut reader = self;
        for byte in bytes {
            reader = reader.feed(*byte, words)?;
        }
        Ok(reader)
    }

    // Ends the reading, at the end of the text, and tells how many words are stored.
    fn finish(self, words: &mut [u32]) -> Result<usize, TextError>
        ensures { reading_of result words.new ≡ still self words.old [] }
    {
        match self.mode {
            Mode::Blank => Ok(self.count),
            Mode::Comment => Ok(self.count),
            Mode::Word(value) => Ok(self.store(value, words)?.count),
        }
    }
}

// Reads a whole text: its words go to the front of `words`, and how many they are is returned.
pub fn read_whole(text: &[u8], words: &mut [u32]) -> Result<usize, TextError>
    ensures { reading_of result words.new ≡ found_in (length words.old) text.now }
{
    if TEXT < text.len() {
        return Err(TextError::Long);
    }
    Reader::start().feed_all(text, words)?.finish(words)
}
