// What the cheaper elimination leaves, as a service: refusals 1 to 11, and the tally, the mask and the list left.
ghost use Rattle.reduced.specs.Reduced.{answer_left, mask_left};
ghost use Rattle.cheaper.specs.Cheaper.{ReducesCheaper};

use crate::both::flags_of_cheaper;
use plan::check::check_lodged;
use plan::limits::Plan;
use reduced::finish::{Kept, finish};
use reduced::room::check_room;
use refusal::Refusal;

// Writes what the cheaper elimination leaves of a plan to the front of `out`.
pub fn cheaper_left(words: &[u32], plan: &[u32], out: &mut [u32]) -> Result<Kept, Refusal>
    ensures { ReducesCheaper words.now plan.now
        out.old (answer_left result) (mask_left result) out.new }
{
    check_lodged(words, plan, Plan::STEPS, check_room(plan.len(), out.len()))?;
    let flags = flags_of_cheaper(words, plan);
    Ok(finish(words, plan, &flags[..plan.len()], out))
}
