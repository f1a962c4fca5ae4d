// Elimination (document 01): a trial at each position in turn.
ghost use Rattle.std.specs.Prelude.{◌≡◌, true};
ghost use Rattle.reduction.specs.Reduction.{valid};
ghost use Rattle.sheet.specs.Decode.{goal, initial as initial_of};
ghost use Rattle.plan.specs.Valid.{steps};
ghost use Rattle.plan.specs.Readable.{Readable};
ghost use Rattle.reduced.specs.Between.Held.{flags_of};
ghost use Rattle.elimination.specs.Between.Left.{elimination_of};

use plan::limits::Plan;
use reduced::held::all_kept;
use step::advance::advance_in;
use step::state::initial;
use trial::trial;

// The flags that elimination leaves of a valid plan: on success all strikes of a trial stand, otherwise its step is
// done.
pub(crate) fn eliminate(words: &[u32], plan: &[u32]) -> [bool; Plan::STEPS]
    requires readable { Readable words.now plan.now }
    requires plan_value { valid (initial_of words.now) (goal words.now) (steps words.now plan.now) ≡ true }
    ensures { result ≡ flags_of plan.now (elimination_of words.now plan.now) }
{
    let mut flags = all_kept(plan.len());
    let mut values = initial(words);
    for (i, &a) in plan.iter().enumerate() {
        if !flags[i] {
            continue;
        }
        let tried = trial(words, plan, flags, values, i);
        if tried.succeeds {
            flags = tried.flags;
            continue;
        }
        advance_in(words, &mut values, a);
    }
    flags
}
