// The test whether a group of facts holds, and the writes of an action's effects. Every service that does a step goes
// through these two.
ghost use Rattle.std.specs.Prelude.{◌≡◌, ◌≤◌, length};
ghost use Rattle.sas.specs.Plan.{holds as holds_in, assign as assigned, acting};
ghost use Rattle.sheet.specs.Limits.{limits};
ghost use Rattle.sheet.specs.Decode.{fact_of};
ghost use Rattle.sheet.specs.Between.Group.{group_left};
ghost use Rattle.sheet.specs.Between.Effects.{effects_in, effects_left};
ghost use Rattle.step.specs.Between.Failing.{Tests};

use access::{front, put_all};
use sheet::effects::{EachEffect, Effects};
use sheet::group::GroupFacts;
use sheet::limits::Sheet;
use sheet::values::{assign, put_fact, value, variable};

// Whether the fact that a word is holds in the state.
pub fn holds(state: &[u32], fact: u32) -> bool
    ensures { result ≡ holds_in state.now (fact_of fact) }
{
    let v = variable(fact);
    v < state.len() && state[v] == value(fact)
}

// The fact at which facts are seen to fail in the state, by its word, or none where they hold. They are looked at from
// the last, since planners write those last that fail most (document 02, C-13): `next_back` is all that says so, and an
// edit that takes `next` instead is refused, which a `for` over `rev` would not let it be at the fact found. The exact
// search tests the facts of a row at once, in no order (`packed_state`).
pub fn find_failing(state: &[u32], mut facts: GroupFacts) -> Option<u32>
    ensures { Tests state.now (group_left facts.entry) result }
{
    while let Some(fact) = facts.next_back() {
        if !holds(state, fact) {
            return Some(fact);
        }
    }
    None
}

// Writes the facts of those effects whose conditions hold in the state `before`.
fn write_acting(before: &[u32], state: &mut [u32], effects: EachEffect)
    ensures { state.new ≡ assigned state.old
        (acting before.now (effects_left effects.entry)) }
{
    for effect in effects {
        if find_failing(before, effect.condition).is_none() {
            put_fact(state, effect.fact);
        }
    }
}

// Writes what an action's effects write into the state. Their conditions are read in the state before any of it is
// written, so that one with conditions is kept beside.
pub fn write_effects(words: &[u32], state: &mut [u32], effects: Effects)
    requires { length state.old ≤ limits.variables }
    ensures { state.new ≡ assigned state.old
        (acting state.old (effects_in words.now effects)) }
{
    if effects.conditional {
        let n = state.len();
        let mut kept = [0u32; Sheet::VARIABLES];
        put_all(&mut kept, state);
        write_acting(front(&kept, n), state, effects.each(words));
        return;
    }
    assign(state, effects.facts(words));
}
