// The supports of what a position needs, in a row of bytes for each position, a byte for each fact.
ghost use Rattle.std.specs.Prelude.{◌≡◌, cond, false, get_or, ◌≤◌};
ghost use Rattle.sheet.specs.Between.Group.{group_left};
ghost use Rattle.landmark.specs.Between.Rows.{most_positions, row_start, supports_noted, row_raised};

use access::{get_or, put};
use plan::limits::Plan;
use sheet::group::GroupFacts;
use sheet::limits::Sheet;
use trace::traces::{SUPPORT, TRACE};

// The positions of the longest plan: its steps, the start step at position 0 and the end step behind the last.
pub(crate) const POSITIONS: usize = Plan::STEPS + 2;
// The bytes of a row: an assignment names each variable once.
const ROW: usize = Sheet::VARIABLES;
// The bytes of all rows.
pub(crate) const ROWS: usize = POSITIONS * ROW;

// Notes the supports of facts in the row of a position that needs them. Past the last byte of the rows all places are
// alike, so that the place counts no further there, and fits however many facts there are.
pub(crate) fn note(traces: &[u8], rows: &mut [u8], at: usize, facts: GroupFacts)
    requires { at ≤ most_positions }
    ensures { rows.new ≡ supports_noted traces.now (row_start at)
        (group_left facts.entry) rows.old }
{
    let mut to = at * ROW;
    for fact in facts {
        put(rows, to, get_or(traces, TRACE * fact as usize + SUPPORT, 0));
        if to < rows.len() {
            to += 1;
        }
    }
}

// Raises the flags of the supports of facts, which stand in the row of a position that needs them. The place counts as
// in `note`.
fn raise_row(rows: &[u8], flags: &mut [bool], at: usize, facts: GroupFacts)
    requires { at ≤ most_positions }
    ensures { flags.new ≡ row_raised rows.now (row_start at)
        (group_left facts.entry) flags.old }
{
    let mut from = at * ROW;
    for _fact in facts {
        put(flags, get_or(rows, from, 0) as usize, true);
        if from < rows.len() {
            from += 1;
        }
    }
}

// The same, where the position is marked.
pub(crate) fn raise_marked(rows: &[u8], flags: &mut [bool], at: usize, facts: GroupFacts)
    requires { at ≤ most_positions }
    ensures { flags.new ≡ cond (get_or flags.old at false)
        (row_raised rows.now (row_start at) (group_left facts.entry) flags.old)
        flags.old }
{
    if get_or(flags, at, false) {
        raise_row(rows, flags, at, facts);
    }
}
