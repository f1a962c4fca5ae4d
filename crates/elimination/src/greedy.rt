// Greedy elimination (document 01): rounds of trials, of which each takes the best success.
ghost use Rattle.std.specs.Prelude.{◌≡◌, true, length};
ghost use Rattle.reduction.specs.Reduction.{valid};
ghost use Rattle.sheet.specs.Decode.{goal, initial as initial_of};
ghost use Rattle.plan.specs.Valid.{steps};
ghost use Rattle.reduced.specs.Between.Held.{mask, flags_of};
ghost use Rattle.elimination.specs.Between.Left.{greedy_elimination_of};
ghost use Rattle.trial.specs.Between.Current.{Current};
ghost use Rattle.elimination.specs.Between.Round.{Picks, better_of};
ghost use Rattle.plan.specs.Readable.{Readable};

use plan::limits::Plan;
use reduced::held::all_kept;
use step::advance::advance_in;
use step::state::initial;
use tally::Tally;
use trial::{Tried, trial};

// The best success of a round so far, if there is one, with the tally of what it strikes.
#[derive(Clone, Copy)]
pub(crate) struct Best {
    pub found: bool,
    pub flags: [bool; Plan::STEPS],
    pub struck: Tally,
}

// The better of the best so far and a trial: the larger cost struck, then the more steps, the earlier where they are
// equal.
fn better(best: Best, tried: Tried) -> Best
    ensures { result ≡ better_of best tried }
{
    if tried.succeeds {
        let flags = tried.flags;
        let struck = tried.struck;
        if best.found {
            if best.struck.is_lower(struck) {
                return Best {
                    found: true,
                    flags,
                    struck,
                };
            }
            return best;
        }
        return Best {
            found: true,
            flags,
            struck,
        };
    }
    best
}

// The best success of the trials at every position of the current list.
fn round(words: &[u32], plan: &[u32], flags: [bool; Plan::STEPS]) -> Best
    requires readable { Readable words.now plan.now }
    requires current { Current words.now plan.now flags }
    ensures { Picks words.now plan.now (mask plan.now flags)
        (length plan.now) result }
{
    let mut values = initial(words);
    let mut best = Best {
        found: false,
        flags,
        struck: Tally::new(),
    };
    for (i, &a) in plan.iter().enumerate() {
        if !flags[i] {
            continue;
        }
        best = better(best, trial(words, plan, flags, values, i));
        advance_in(words, &mut values, a);
    }
    best
}

// The flags that greedy elimination leaves of a valid plan.
pub(crate) fn greedy(words: &[u32], plan: &[u32]) -> [bool; Plan::STEPS]
    requires readable { Readable words.now plan.now }
    requires plan_value { valid (initial_of words.now) (goal words.now) (steps words.now plan.now) ≡ true }
    ensures { result ≡ flags_of plan.now
        (greedy_elimination_of words.now plan.now) }
{
    let mut flags = all_kept(plan.len());
    for _rounds in 0..plan.len() {
        let best = round(words, plan, flags);
        if best.found {
            flags = best.flags;
        } else {
            return flags;
        }
    }
    flags
}
