// All parts of a sheet, one behind the other, and the pairs that say where each stands.
ghost use Rattle.std.specs.Prelude.{◌+◌, ◌*◌, ◌≤◌};
ghost use Rattle.sheet.specs.Limits.{limits};
ghost use Rattle.sheet.specs.Layout.{first_edition};
ghost use Rattle.sheet.specs.Between.Encode.{parts};
ghost use Rattle.meaning.specs.Between.Sections.{number_at, ranges, operators_at, meaning};
ghost use Rattle.meaning.specs.Between.Order.{ordered};
ghost use Rattle.meaning.specs.Between.Writable.{actions_fit};
ghost use Rattle.sheet_writer.specs.Between.Laid.{first_word};
ghost use Rattle.task_sheet.specs.Between.Parts.{action_parts, facts_fit, Lays};

use crate::action::{write_action, write_group};
use meaning::numbers::{Numbers, RANGES_AT};
use meaning::operator::Operator;
use sheet::layout::{DOMAINS, FIRST_ACTION, GOAL, INITIAL, PAIR, PAIRS_AT};
use sheet_writer::layout::write_pair;
use sheet_writer::words::write_words;

// Writes the parts of the operators from word `at` on, and their pairs.
fn write_actions(x: &Numbers, sheet: &mut [u32], at: usize) -> Option<usize>
    requires { let n = number_at x.now (operators_at x.now) in
        (n ≤ limits.actions) × (first_word n ≤ at) × (at ≤ first_word n + 3 * limits.variables) }
    ensures { let actions = (meaning x.now).actions in
        Lays (actions_fit (ranges x.now) actions)
        3 (action_parts actions) sheet.old sheet.new at result }
{
    let mut i = x.first_operator();
    let mut to = at;
    for a in 0..x.operators() {
        let operator = Operator {
            numbers: &*x,
            at: i,
        };
        let end = write_action(&operator, sheet, to)?;
        write_pair(sheet, FIRST_ACTION + a, to, end);
        to = end;
        i = operator.end();
    }
    Some(to)
}

// Writes all parts and their pairs.
pub(crate) fn write_parts(x: &Numbers, sheet: &mut [u32]) -> Option<usize>
    requires { number_at x.now (operators_at x.now) ≤ limits.actions }
    ensures { Lays (facts_fit (meaning x.now)) 0
        (parts first_edition (ordered (meaning x.now)))
        sheet.old sheet.new (first_word (number_at x.now (operators_at x.now))) result }
{
    let v = x.variables();
    let domains = PAIRS_AT + PAIR * (FIRST_ACTION + x.operators());
    let initial = domains + v;
    let goal = initial + v;
    write_words(x.all(), RANGES_AT, v, sheet, domains);
    write_pair(sheet, DOMAINS, domains, initial);
    write_words(x.all(), RANGES_AT + v, v, sheet, initial);
    write_pair(sheet, INITIAL, initial, goal);
    let actions = write_group(x, x.goal(), sheet, goal)?;
    write_pair(sheet, GOAL, goal, actions);
    write_actions(x, sheet, actions)
}
