// What programs print: the lines of a tally and of a refusal, and the writing of what has been put into lent bytes.
ghost use Rattle.std.specs.Prelude.{[], ◌∷◌, ◌≤◌, length};
ghost use Rattle.lines.specs.Lines.{numeral, line, row};
ghost use Rattle.lines.specs.Puts.{Puts};
ghost use Rattle.refusal.specs.Refusal.{told_refusal};
ghost use Rattle.program.specs.Printed.{tally_line, refusal_line};
ghost use Rattle.program.specs.Between.Room.{word_room, line_room, ShortLine};

use lines::Page;
use refusal::Refusal;
use tally::Tally;

// The most bytes of a line of a short word and two numbers, or of three numbers.
pub const LINE: usize = 64;

// Puts a line of a word and numbers.
pub fn put_line(page: &mut Page, word: &[u8], numbers: &[u64])
    ensures puts { Puts (line word.now numbers.now) page.old page.new }
    ensures short_line { length numbers.now ≤ 2 → ShortLine word.now numbers.now }
{
    page.line(word, numbers);
}

// Puts a line of numbers.
pub fn put_row(page: &mut Page, first: u64, others: &[u64])
    ensures puts { Puts (row first others.now) page.old page.new }
    ensures short_line { length others.now ≤ 2 → ShortLine (numeral first) others.now }
    ensures first_len_bound { length (numeral first) ≤ word_room }
{
    page.row(first, others);
}

// Puts a line of a word, and the steps and the cost of a tally.
pub fn put_tally(page: &mut Page, word: &[u8], tally: Tally)
    ensures puts { Puts (tally_line word.now tally) page.old page.new }
    ensures short_line { ShortLine word.now (tally.steps ∷ tally.cost ∷ []) }
{
    put_line(page, word, &[u64::from(tally.steps), u64::from(tally.cost)]);
}

// Puts the line of a refusal: its number and its place.
pub fn put_refusal(page: &mut Page, refusal: Refusal)
    ensures puts { Puts (refusal_line (told_refusal refusal)) page.old page.new }
    ensures refusal_len_bound { length (refusal_line (told_refusal refusal)) ≤ line_room }
{
    put_line(
        page,
        b"refused",
        &[refusal.number() as u64, refusal.place() as u64],
    );
}

// Writes a text to standard output, and says on standard error where that can't be done. No contract can say what is
// written there, so this is all that it does.
pub fn write_text(rt: &(impl Print + Eprint), text: &[u8]) {
    if rt.write_all(text).is_ok() {
        return;
    }
    let _ = rt.eprint("the answer can't be written\n");
}
