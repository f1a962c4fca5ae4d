// One action in a lent state, and the goal there: what every walk along a plan is made of.
ghost use Rattle.std.specs.Prelude.{◌≡◌, ◌≤◌, length};
ghost use Rattle.sas.specs.Plan.{satisfies};
ghost use Rattle.sheet.specs.Limits.{limits};
ghost use Rattle.sheet.specs.Decode.{goal as goal_of};
ghost use Rattle.step.specs.State.{front};
ghost use Rattle.step.specs.Between.Advance.{Advances};

use crate::facts::{find_failing, write_effects};
use crate::state::size;
use sheet::group::{facts_of, goal};

// Does an action where it is applicable, and leaves the state where it is not; says which.
pub fn advance(words: &[u32], state: &mut [u32], action: u32) -> bool
    requires { length state.old ≤ limits.variables }
    ensures { Advances words.now state.old action result state.new }
{
    let facts = facts_of(words, action);
    if find_failing(state, facts.precondition.facts(words)).is_some() {
        return false;
    }
    write_effects(words, state, facts.effects);
    true
}

// Whether the goal holds in a state.
pub fn goal_holds(words: &[u32], state: &[u32]) -> bool
    ensures { result ≡ satisfies state.now (goal_of words.now) }
{
    find_failing(state, goal(words).facts(words)).is_none()
}

// The same in the state that is the front of an array.
pub fn advance_in(words: &[u32], values: &mut [u32], action: u32) -> bool
    ensures { Advances words.now (front words.now values.old) action result
        (front words.now values.new) }
{
    let n = size(words);
    if n < values.len() {
        return advance(words, &mut values[..n], action);
    }
    advance(words, values, action)
}
