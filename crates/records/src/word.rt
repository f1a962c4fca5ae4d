// Little-endian words among bytes. What the bytes lack reads as 0.
ghost use Rattle.std.specs.Prelude.{◌≡◌, ◌<◌, ◌^◌};
ghost use Rattle.records.specs.RecordForm.{word_at};

use access::get_or;

// How many bytes a word has, and how many values a byte.
pub const WORD: usize = 4;

pub const BYTE: u32 = 256;

// Word i, its lowest byte first.
pub fn word_at(bytes: &[u8], i: usize) -> u32
    requires { i < 2 ^ 61 }
    ensures { (result ≡ word_at bytes.now i) × (result < 2 ^ 32) }
{
    let at = WORD * i;
    u32::from_le_bytes([
        get_or(bytes, at, 0),
        get_or(bytes, at + 1, 0),
        get_or(bytes, at + 2, 0),
        get_or(bytes, at + 3, 0),
    ])
}
