// The minimal reduction of a plan: refusals 1 to 12, and the tally, the mask and the list left.
ghost use Rattle.minimal.specs.Minimised.{most_unmarked, shortening, Minimises};
ghost use Rattle.minimal.specs.Statement.{DemandThree};

use crate::within::{Shortened, reduce_within};
use refusal::Refusal;

// The most steps that may be unmarked. specs/Minimised.antt has it for the definitions.
pub const UNMARKED: usize = 20;

// Writes what the minimal reduction leaves of a plan to the front of `out`.
pub fn minimal_reduction(words: &[u32], plan: &[u32], out: &mut [u32]) -> Result<Shortened, Refusal>
    ensures answer { Minimises most_unmarked words.now plan.now
        out.old (shortening result) out.new }
    ensures demand_three { DemandThree most_unmarked words.now plan.now out.old
        (shortening result).answer (shortening result).mask.words out.new }
{
    reduce_within(words, plan, out, UNMARKED)
}
