// A trial of document 01, from the state before its step: the step is struck, and of the rest each that can't be done.
// walk: the rest of the current list, with steps that can't be done struck and counted.
#![tactic(auto)]

mod walk;

ghost use Rattle.std.specs.Prelude.{◌<◌, length};
ghost use Rattle.step.specs.State.{front};
ghost use Rattle.plan.specs.Readable.{Readable};
ghost use Rattle.trial.specs.Between.Trial.{MakesTrial};

use crate::walk::walk_rest;
use access::put;
use plan::limits::Plan;
use sheet::layout::cost;
use sheet::limits::Sheet;
use step::advance::goal_holds;
use tally::Tally;

// Whether a trial succeeds, what it leaves, and the tally of what it strikes.
#[derive(Clone, Copy)]
pub struct Tried {
    pub succeeds: bool,
    pub flags: [bool; Plan::STEPS],
    pub struck: Tally,
}

// Strikes the step at index i, walks the rest from the state before it, which `values` holds, and looks at the goal.
// The walk is made in the whole array, whose length is known, which is faster than in the state's part of it: no action
// of an accepted task reads past the state.
pub fn trial(
    words: &[u32],
    plan: &[u32],
    flags: [bool; Plan::STEPS],
    values: [u32; Sheet::VARIABLES],
    i: usize,
) -> Tried
    requires readable { Readable words.now plan.now }
    requires i_in_bounds { i < length plan.now }
    ensures { MakesTrial words.now plan.now i flags (front words.now values)
        result.succeeds result.flags result.struck }
{
    let mut left = flags;
    let mut state = values;
    put(&mut left, i, false);
    let first = Tally::new().add(cost(words, plan[i]));
    let struck = walk_rest(words, plan, &mut left, &mut state, i + 1, first);
    let succeeds = goal_holds(words, &state);
    Tried {
        succeeds,
        flags: left,
        struck,
    }
}
