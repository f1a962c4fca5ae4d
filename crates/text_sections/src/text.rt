// The reading of a whole text.
ghost use Rattle.std.specs.Prelude.{◌≡◌, length, IfOk};
ghost use Rattle.form.specs.Between.Form.{text_lines};
ghost use Rattle.form.specs.Between.Reading.{Reads};
ghost use Rattle.text_sections.specs.Between.Outcome.{outcome_of, found_in};

use crate::sections::{read_front, read_rest};
use form::reader::Reader;
use number_rows::numbers::read_plain;

// The numbers of a text, and the first line that no sheet can say.
#[derive(Clone, Copy)]
pub struct Numbers<'a> {
    pub kept: &'a [u32],
    pub barred: Option<usize>,
}

// Reads all lines that a text must have.
fn read_all(reader: &mut Reader) -> Result<(), usize>
    ensures { Reads text_lines reader.old result reader.new }
{
    read_front(reader)?;
    let n = read_plain(reader, true)?;
    read_rest(reader, n as usize)
}

// Reads a text, and puts its numbers to the front of the tape. Or tells the first line that is not what it must be; as
// line 0, that the text has more than two bytes for each number that the tape has room for.
pub fn read_text<'a>(text: &'a [u8], tape: &'a mut [u32]) -> Result<Numbers<'a>, usize>
    ensures outcome { outcome_of result ≡ found_in (length tape.old) text.now }
    // The slice of the numbers begins where the tape does.
    ensures at_front { IfOk result (λ numbers. numbers.kept.ref_ptr ≡ tape.entry.ref_ptr) }
{
    if 2 * tape.len() < text.len() {
        return Err(0);
    }
    let mut reader = Reader::start(text, tape);
    read_all(&mut reader)?;
    if !reader.rest.is_empty() {
        return Err(reader.next_line());
    }
    let Reader {
        tape,
        count,
        barred,
        ..
    } = reader;
    Ok(Numbers {
        kept: &tape[..count],
        barred,
    })
}
