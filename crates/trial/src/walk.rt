// The walk of a trial along the rest of the current list.
ghost use Rattle.std.specs.Prelude.{◌≡◌, true, false, ◌≤◌, length, get_or};
ghost use Rattle.sheet.specs.Limits.{limits};
ghost use Rattle.trial.specs.Between.Walk.{WalksRest, DoesOrStrikes};

use access::put;
use sheet::layout::cost;
use step::advance::advance;
use tally::Tally;

// Does each kept step from index i on in turn, and strikes those that can't be done. Adds what it strikes to the tally
// of what is struck already.
pub(crate) fn walk_rest(
    words: &[u32],
    plan: &[u32],
    flags: &mut [bool],
    state: &mut [u32],
    i: usize,
    struck: Tally,
) -> Tally
    requires { (length plan.now ≤ length flags.old) × (length state.old ≤ limits.variables) }
    ensures { WalksRest words.now plan.now i
        flags.old state.old struck
        flags.new state.new result }
{
    let mut tally = struck;
    for j in i..plan.len() {
        if !flags[j] {
            continue;
        }
        tally = do_or_strike(words, flags, state, plan[j], j, tally);
    }
    tally
}

// Does action a for the kept step at index j, and strikes it where it can't be done.
fn do_or_strike(
    words: &[u32],
    flags: &mut [bool],
    state: &mut [u32],
    a: u32,
    j: usize,
    struck: Tally,
) -> Tally
    requires { (get_or flags.old j false ≡ true) × (length state.old ≤ limits.variables) }
    ensures { DoesOrStrikes words.now a j
        flags.old state.old struck
        flags.new state.new result }
{
    if advance(words, state, a) {
        return struck;
    }
    put(flags, j, false);
    struck.add(cost(words, a))
}
