// Effects, and the heads of axioms, which are like effects without conditions.
ghost use Rattle.std.specs.Prelude.{[], ◌∷◌, ◌+◌, ◌*◌, ◌≤◌, length};
ghost use Rattle.form.specs.Between.Form.{Effect, Head, numbers};
ghost use Rattle.form.specs.Between.Reading.{Reads};
ghost use Rattle.text_effects.specs.Between.Runs.{ReadsRun, ReadsChange};

use fields::word::{End, read_number, read_word};
use form::reader::Reader;

// Reads n numbers, each with a space behind it, to the tape from index `from` on. Returns what stands behind them.
fn read_run<'a>(bytes: &'a [u8], tape: &mut [u32], from: usize, n: usize) -> Option<&'a [u8]>
    requires { 2 * from + length bytes.now ≤ 2 * length tape.old }
    ensures { ReadsRun bytes.now tape.old from n result tape.new }
{
    let mut rest = bytes;
    for k in 0..n {
        let Some(number) = read_number(rest, End::Space) else {
            return None;
        };
        tape[from + k] = number.value;
        rest = number.rest;
    }
    Some(rest)
}

// Reads what ends such a line, `variable old new`, to the tape from index `from` on. Returns what stands behind it.
fn read_change<'a>(bytes: &'a [u8], tape: &mut [u32], from: usize) -> Option<&'a [u8]>
    requires { 2 * from + length bytes.now ≤ 2 * length tape.old }
    ensures { ReadsChange bytes.now tape.old from result tape.new }
{
    let variable = read_number(bytes, End::Space)?;
    let old = read_word(variable.rest, End::Space)?;
    let new = read_number(old.rest, End::LineEnd)?;
    tape[from] = variable.value;
    tape[from + 1] = old.value;
    tape[from + 2] = new.value;
    Some(new.rest)
}

// Reads an effect, with its conditions: only without any is it what a sheet can say.
pub fn read_effect(reader: &mut Reader) -> Result<(), usize>
    ensures { Reads (numbers Effect ∷ []) reader.old result reader.new }
{
    let Some(conditions) = read_number(reader.rest, End::Space) else {
        return Err(reader.next_line());
    };
    let from = reader.count;
    let n = 2 * conditions.value as usize;
    reader.tape[from] = conditions.value;
    let Some(rest) = read_run(conditions.rest, reader.tape, from + 1, n) else {
        return Err(reader.next_line());
    };
    let Some(rest) = read_change(rest, reader.tape, from + 1 + n) else {
        return Err(reader.next_line());
    };
    reader.pass(rest);
    reader.count = from + 1 + n + 3;
    reader.note(0 < conditions.value);
    Ok(())
}

// Reads the head of an axiom.
pub fn read_head(reader: &mut Reader) -> Result<(), usize>
    ensures { Reads (numbers Head ∷ []) reader.old result reader.new }
{
    let Some(rest) = read_change(reader.rest, reader.tape, reader.count) else {
        return Err(reader.next_line());
    };
    reader.pass(rest);
    Ok(())
}
