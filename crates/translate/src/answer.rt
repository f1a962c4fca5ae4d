// What the program answers, in lent bytes: what it writes to standard output, and what it says on standard error.
ghost use Rattle.std.specs.Prelude.{List, ℕ};
ghost use Rattle.translate.specs.Answer.{only_says, Gives};

use lines::Page;

// How many bytes are written, and how many are said: a count for each of two outputs, and no choice between them.
#[derive(Clone, Copy)]
pub(crate) struct Answered {
    pub(crate) written: usize,
    pub(crate) said: usize,
}

// Says a line and writes nothing.
pub(crate) fn refuse(errors: &mut [u8], what: &[u8]) -> Answered
    ensures { (out : List ℕ) → Gives (only_says what.now) out out
        errors.old errors.new result }
{
    let mut page = Page::new(errors);
    page.line(what, &[]);
    Answered {
        written: 0,
        said: page.end,
    }
}

// Hands an answer out. Where its bytes can't be written, that is said instead, in the words of `lost`.
pub(crate) fn give(
    out: &impl Print,
    errors: &impl Print,
    written: &[u8],
    said: &[u8],
    lost: &[u8],
) {
    let _ = errors.write_all(said);
    if out.write_all(written).is_err() {
        let _ = errors.write_all(lost);
        let _ = errors.write_all(b"\n");
    }
}
