// The program that turns a planner's text (document 02, C-11) into the words of its sheet, in the form in which the
// programs read one. A text that is refused gets the line of its refusal on standard error, and no word is written.
// input: the reading of standard input. answer: what is written and said. translate: what is answered to a text.
#![tactic(auto)]

mod answer;
mod input;
mod translate;

ghost use Rattle.std.specs.Prelude.{◌≡◌, ◌+◌, length};
ghost use Rattle.planner.specs.Text.{most_bytes};

use crate::answer::give;
use crate::translate::translate_input;
use form::limits::TEXT;
use program::output::LINE;
use records::word::WORD;
use sheet::limits::Sheet;

// Room for one byte more than a text may have, to see that it is no longer. The array is so long that only its length
// is told to `main`.
fn input_room() -> [u8; TEXT + 1]
    ensures { most_bytes + 1 ≡ length result }
{
    [0; TEXT + 1]
}

fn main(rt: HostRuntime) {
    let mut reader = rt.stdin();
    let mut bytes = input_room();
    let mut out = [0u8; WORD * Sheet::WORDS];
    let mut errors = [0u8; LINE];
    let done = translate_input(&mut reader, &mut bytes, &mut out, &mut errors);
    let answer = done.answer;
    let written = answer.written;
    let said = answer.said;
    give(
        &rt.stdout(),
        &rt.stderr(),
        &out[..written],
        &errors[..said],
        b"the words can't be written",
    );
}
