// Words as a text for people, in lines of ten.
#![tactic(auto)]

ghost use Rattle.lines.specs.Puts.{Puts};
ghost use Rattle.word_rows.specs.Rows.{rows};

use lines::Page;

// How many words a line has.
const ROW: usize = 10;

// Puts words, in lines.
pub fn put_rows(page: &mut Page, words: &[u32])
    ensures { Puts (rows words.now) page.old page.new }
{
    for row in words.chunks(ROW) {
        page.end_line(row);
    }
}
