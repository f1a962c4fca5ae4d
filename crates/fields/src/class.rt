// The five classes of bytes. Digits are told by a test of their own, std's, with the one range: most bytes of a line of
// numbers are digits, and are tested for no other class.
ghost use Rattle.std.specs.Prelude.{◌≡◌};
ghost use Rattle.ascii.specs.Bytes.{ends_line};
ghost use Rattle.fields.specs.Between.Fields.{class_of};

// Public, since `class_of`, the definition that tells it, is.
#[derive(Clone, Copy, PartialEq, Eq)]
pub enum Class {
    Digit,
    Minus,
    Space,
    LineEnd,
    Other,
}

// The class of a byte.
#[tactic(auto, unfolding(crate::specs::Between::Fields::class_of))]
pub(crate) fn classify(byte: u8) -> Class
    ensures { result ≡ class_of byte }
{
    match byte {
        b'0'..=b'9' => Class::Digit,
        b'-' => Class::Minus,
        b' ' => Class::Space,
        b'\n' => Class::LineEnd,
        _ => Class::Other,
    }
}

// Whether a line ends with a byte.
pub(crate) fn ends_line(byte: u8) -> bool
    ensures { result ≡ ends_line byte }
{
    classify(byte) == Class::LineEnd
}
