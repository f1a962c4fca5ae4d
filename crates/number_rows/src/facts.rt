// Lines of a variable and its value.
ghost use Rattle.std.specs.Prelude.{[], ◌∷◌};
ghost use Rattle.form.specs.Between.Form.{numbers};
ghost use Rattle.form.specs.Between.Reading.{Reads};
ghost use Rattle.number_rows.specs.Between.Rows.{fact_row};

use fields::word::{End, read_number};
use form::reader::Reader;

// Reads such a line, which is kept or not.
pub fn read_fact(reader: &mut Reader, keeps: bool) -> Result<(), usize>
    ensures { Reads (numbers (fact_row keeps) ∷ []) reader.old result reader.new }
{
    let Some(variable) = read_number(reader.rest, End::Space) else {
        return Err(reader.next_line());
    };
    let Some(value) = read_number(variable.rest, End::LineEnd) else {
        return Err(reader.next_line());
    };
    reader.pass(value.rest);
    if keeps {
        reader.keep(variable.value);
        reader.keep(value.value);
    }
    Ok(())
}
