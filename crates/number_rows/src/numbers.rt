// Lines of one number.
ghost use Rattle.std.specs.Prelude.{[], ◌∷◌};
ghost use Rattle.form.specs.Between.Form.{Row, Metric, Layer, Value, Count, Axioms, numbers};
ghost use Rattle.form.specs.Between.Reading.{Reads, ReadsRow};
ghost use Rattle.number_rows.specs.Between.Rows.{PlainRow};

use fields::limits::ANY;
use fields::word::{End, read_number, read_word};
use form::reader::Reader;

// Reads a line of one number, which is kept or not, and which every sheet can say, and tells the number.
pub fn read_plain(reader: &mut Reader, keeps: bool) -> Result<u32, usize>
    ensures { (row : Row) → PlainRow keeps row → ReadsRow row reader.old result reader.new }
{
    let Some(number) = read_number(reader.rest, End::LineEnd) else {
        return Err(reader.next_line());
    };
    reader.pass(number.rest);
    if keeps {
        reader.keep(number.value);
    }
    Ok(number.value)
}

// Reads a starting value, or a cost.
pub fn read_value(reader: &mut Reader) -> Result<(), usize>
    ensures { Reads (numbers Value ∷ []) reader.old result reader.new }
{
    read_plain(reader, true)?;
    Ok(())
}

// Reads the metric, 0 or 1.
pub fn read_metric(reader: &mut Reader) -> Result<(), usize>
    ensures { Reads (numbers Metric ∷ []) reader.old result reader.new }
{
    let Some(metric) = read_number(reader.rest, End::LineEnd) else {
        return Err(reader.next_line());
    };
    if 1 < metric.value {
        return Err(reader.next_line());
    }
    reader.pass(metric.rest);
    reader.keep(metric.value);
    Ok(())
}

// Reads an axiom layer: only −1 is what a sheet can say.
pub fn read_layer(reader: &mut Reader) -> Result<(), usize>
    ensures { Reads (numbers Layer ∷ []) reader.old result reader.new }
{
    let Some(layer) = read_word(reader.rest, End::LineEnd) else {
        return Err(reader.next_line());
    };
    reader.pass(layer.rest);
    reader.note(layer.value != ANY);
    Ok(())
}

// Reads how many axioms there are, and tells it: only 0 is what a sheet can say.
pub fn read_axiom_count(reader: &mut Reader) -> Result<u32, usize>
    ensures { ReadsRow (Count Axioms) reader.old result reader.new }
{
    let Some(axioms) = read_number(reader.rest, End::LineEnd) else {
        return Err(reader.next_line());
    };
    reader.pass(axioms.rest);
    reader.note(0 < axioms.value);
    Ok(axioms.value)
}
