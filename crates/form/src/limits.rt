// How long a text is. specs/Form.antt has the same for the definitions.

// The most bytes of a text.
pub const TEXT: usize = 65_536;

// Room for the numbers of a text: each has a byte behind it.
pub const NUMBERS: usize = TEXT / 2;
