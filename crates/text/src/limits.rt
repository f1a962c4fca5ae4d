// How long a text is. specs/Limits.antt has the same for the definitions.
use records::framing::WORDS;

// The most words of a text: one more than input that is whole has, so that a program which reads them still sees that
// they run on.
pub const MOST: usize = WORDS + 1;

// The most bytes of a text, which its comments may fill.
pub const TEXT: usize = 1_048_576;
