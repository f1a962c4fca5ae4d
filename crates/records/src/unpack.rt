// Bytes as words.
ghost use Rattle.std.specs.Prelude.{◌≡◌, length};
ghost use Rattle.records.specs.RecordForm.{unpacked};

use crate::word::word_at;

// Fills `words` with the first words of the bytes.
pub fn unpack(bytes: &[u8], words: &mut [u32])
    ensures { words.new ≡ unpacked bytes.now (length words.old) }
{
    for (i, word) in words.iter_mut().enumerate() {
        *word = word_at(bytes, i);
    }
}
