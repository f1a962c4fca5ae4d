// The sheet of the task that numbers mean.
ghost use Rattle.task_sheet.specs.Between.Built.{Builds};

use crate::parts::write_parts;
use meaning::numbers::Numbers;
use sheet::layout::EDITION;
use sheet::limits::Sheet;
use sheet_writer::layout::write_header;

// Writes the sheet of the task that numbers mean to the front of `sheet`, where a sheet can say it. What does not fit
// is dropped. Returns how many words the sheet has.
pub fn build(x: &[u32], sheet: &mut [u32]) -> Option<usize>
    ensures { Builds x.now sheet.old sheet.new result }
{
    let numbers = Numbers::new(x)?;
    let variables = numbers.variables();
    let operators = numbers.operators();
    if variables < 1 {
        return None;
    }
    if Sheet::ACTIONS < operators {
        return None;
    }
    let words = write_parts(&numbers, sheet)?;
    if Sheet::WORDS < words {
        return None;
    }
    write_header(sheet, EDITION as u32, variables, operators, words);
    Some(words)
}
