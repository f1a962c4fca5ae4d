// What is answered to a planner's text: the bytes of its sheet's words, or its refusal.
ghost use Rattle.std.specs.Prelude.{◌*◌, ◌≤◌, length, take};
ghost use Rattle.sheet.specs.Limits.{limits};
ghost use Rattle.records.specs.RecordForm.{word_bytes};
ghost use Rattle.program.specs.Between.Room.{line_room};
ghost use Rattle.translate.specs.Answer.{Gives};
ghost use Rattle.translate.specs.Translate.{translated, translated_input, HasTranslated};

use crate::answer::{Answered, refuse};
use crate::input::{Input, read_input};
use lines::Page;
use program::output::put_refusal;
use program::pack::pack;
use sheet::limits::Sheet;
use std::io::Read;
use translation::translate::translate;

// Translates a text. What is said of it has room in a line.
fn translate_text(text: &[u8], out: &mut [u8], errors: &mut [u8]) -> Answered
    ensures gives { Gives (translated text.now) out.old out.new
        errors.old errors.new result }
    ensures text_len_bound { length (translated text.now).said ≤ line_room }
{
    let mut words = [0u32; Sheet::WORDS];
    match translate(text, &mut words) {
        Ok(n) => {
            let mut page = Page::new(out);
            pack(&mut page, &words[..n]);
            let written = page.end;
            Answered { written, said: 0 }
        }
        Err(refusal) => {
            let mut page = Page::new(errors);
            put_refusal(&mut page, refusal);
            let said = page.end;
            Answered { written: 0, said }
        }
    }
}

// What was read, and what was answered to it.
// Both stand whatever was read: `HasTranslated` speaks of each.
#[derive(Clone, Copy)]
pub(crate) struct Translating {
    pub(crate) input: Input,
    pub(crate) answer: Answered,
}

// Reads a text from `reader`, and translates it. What is written fits into as many bytes as are asked for
// (`sheet_bytes_fit`), and what is said into a line.
pub(crate) fn translate_input<R: Read>(
    reader: &mut R,
    bytes: &mut [u8],
    out: &mut [u8],
    errors: &mut [u8],
) -> Translating
    requires { (word_bytes * limits.words ≤ length out.old) × (line_room ≤ length errors.old) }
    ensures has_translated { HasTranslated bytes.new result
        out.old out.new errors.old errors.new }
    ensures bytes_len_bound { length (translated_input result.input.last (take result.input.count bytes.new)).said
        ≤ line_room }
{
    let input = read_input(reader, bytes);
    match input.last {
        Some(_) => {
            let answer = translate_text(&bytes[..input.count], out, errors);
            Translating { input, answer }
        }
        None => {
            let answer = refuse(errors, b"the text can't be read");
            Translating { input, answer }
        }
    }
}
