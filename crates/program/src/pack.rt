// Words as bytes.
ghost use Rattle.lines.specs.Puts.{Puts};
ghost use Rattle.records.specs.Bytes.{all_bytes};

use lines::Page;

// Puts words, the lowest byte of each first.
pub fn pack(page: &mut Page, words: &[u32])
    ensures { Puts (all_bytes words.now) page.old page.new }
{
    for word in words {
        page.text(&word.to_le_bytes());
    }
}
