// A reduction as flags: one for each step that a plan may have, none up past its last.
ghost use Rattle.std.specs.Prelude.{◌≡◌};
ghost use Rattle.reduced.specs.Between.Held.{none_struck};

use plan::limits::Plan;

// The flags of a plan of n steps of which none is struck; every flag is up where a plan may not have as many.
pub fn all_kept(n: usize) -> [bool; Plan::STEPS]
    ensures { result ≡ none_struck n }
{
    let mut flags = [false; Plan::STEPS];
    for i in 0..n.min(Plan::STEPS) {
        flags[i] = true;
    }
    flags
}
