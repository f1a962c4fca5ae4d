// The steps of a plan in turn.
ghost use Rattle.std.specs.Prelude.{◌≤◌, length};
ghost use Rattle.sheet.specs.Limits.{limits};
ghost use Rattle.plan.specs.Between.Walk.{Walks};

use sheet::layout::cost;
use step::advance::{advance, goal_holds};
use tally::Tally;

// Does each step of a plan in turn in a lent state, and looks at the goal after the last. Gives the tally of a valid
// plan, or where it fails to be valid.
pub(crate) fn walk(words: &[u32], plan: &[u32], state: &mut [u32]) -> Result<Tally, usize>
    requires { length state.old ≤ limits.variables }
    ensures { Walks words.now plan.now state.old result state.new }
{
    let mut tally = Tally::new();
    for (i, &a) in plan.iter().enumerate() {
        if !advance(words, state, a) {
            return Err(i + 1);
        }
        tally = tally.add(cost(words, a));
    }
    if goal_holds(words, state) {
        return Ok(tally);
    }
    Err(plan.len() + 1)
}
