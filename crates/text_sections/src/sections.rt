// The sections of a text.
ghost use Rattle.std.specs.Prelude.{[], ◌∷◌, List};
ghost use Rattle.form.specs.Between.Form.{Counted, Axioms, Due, counts, variable_lines, group_lines, operator_lines};
ghost use Rattle.form.specs.Between.Form.{axiom_lines, state_lines, goal_lines, front_lines, after_variables};
ghost use Rattle.form.specs.Between.Reading.{Reads, AlwaysReads};
ghost use Rattle.text_sections.specs.Between.Sections.{Counts};

use form::reader::Reader;
use number_rows::facts::read_fact;
use number_rows::numbers::{read_axiom_count, read_layer, read_metric, read_plain, read_value};
use text_effects::effects::{read_effect, read_head};

// Reads how many there are, a number that is kept or not, and then so many times what `step` reads.
fn read_counted<'a, F: Fn(&mut Reader<'a>) -> Result<(), usize>>(
    reader: &mut Reader<'a>,
    keeps: bool,
    step: F,
) -> Result<(), usize>
    requires { F.IsAlwaysCallable step }
    ensures { (what : Counted) (ds : List Due) → Counts keeps what ds → AlwaysReads ds (F.post step)
        → Reads (counts what ∷ []) reader.old result reader.new }
{
    let n = read_plain(reader, keeps)?;
    reader.repeat(n as usize, step)
}

fn read_variable(reader: &mut Reader) -> Result<(), usize>
    ensures { Reads variable_lines reader.old result reader.new }
{
    reader.keyword(b"begin_variable")?;
    reader.name()?;
    read_layer(reader)?;
    read_counted(reader, true, Reader::name)?;
    reader.keyword(b"end_variable")
}

fn read_group(reader: &mut Reader) -> Result<(), usize>
    ensures { Reads group_lines reader.old result reader.new }
{
    reader.keyword(b"begin_mutex_group")?;
    read_counted(reader, false, |r| read_fact(r, false))?;
    reader.keyword(b"end_mutex_group")
}

fn read_operator(reader: &mut Reader) -> Result<(), usize>
    ensures { Reads operator_lines reader.old result reader.new }
{
    reader.keyword(b"begin_operator")?;
    reader.name()?;
    read_counted(reader, true, |r| read_fact(r, true))?;
    read_counted(reader, true, read_effect)?;
    read_value(reader)?;
    reader.keyword(b"end_operator")
}

fn read_axiom(reader: &mut Reader) -> Result<(), usize>
    ensures { Reads axiom_lines reader.old result reader.new }
{
    reader.keyword(b"begin_rule")?;
    read_counted(reader, false, |r| read_fact(r, false))?;
    read_head(reader)?;
    reader.keyword(b"end_rule")
}

// Reads how many axioms there are, and those axioms.
fn read_axioms(reader: &mut Reader) -> Result<(), usize>
    ensures { Reads (counts Axioms ∷ []) reader.old result reader.new }
{
    let n = read_axiom_count(reader)?;
    reader.repeat(n as usize, read_axiom)
}

fn read_state(reader: &mut Reader, n: usize) -> Result<(), usize>
    ensures { Reads (state_lines n) reader.old result reader.new }
{
    reader.keyword(b"begin_state")?;
    reader.repeat(n, read_value)?;
    reader.keyword(b"end_state")
}

fn read_goal(reader: &mut Reader) -> Result<(), usize>
    ensures { Reads goal_lines reader.old result reader.new }
{
    reader.keyword(b"begin_goal")?;
    read_counted(reader, true, |r| read_fact(r, true))?;
    reader.keyword(b"end_goal")
}

// Reads the version and the metric.
pub(crate) fn read_front(reader: &mut Reader) -> Result<(), usize>
    ensures { Reads front_lines reader.old result reader.new }
{
    reader.keyword(b"begin_version")?;
    reader.keyword(b"3")?;
    reader.keyword(b"end_version")?;
    reader.keyword(b"begin_metric")?;
    read_metric(reader)?;
    reader.keyword(b"end_metric")
}

// Reads what follows the number of variables.
pub(crate) fn read_rest(reader: &mut Reader, n: usize) -> Result<(), usize>
    ensures { Reads (after_variables n) reader.old result reader.new }
{
    reader.repeat(n, read_variable)?;
    read_counted(reader, false, read_group)?;
    read_state(reader, n)?;
    read_goal(reader)?;
    read_counted(reader, true, read_operator)?;
    read_axioms(reader)
}
