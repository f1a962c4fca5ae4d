// Each elimination as a service: refusals 1 to 11, and the tally, the mask and the list left.
ghost use Rattle.std.specs.Prelude.{◌≡◌, true};
ghost use Rattle.reduction.specs.Reduction.{valid};
ghost use Rattle.sheet.specs.Decode.{goal, initial};
ghost use Rattle.plan.specs.Valid.{steps};
ghost use Rattle.plan.specs.Readable.{Readable};
ghost use Rattle.reduced.specs.Between.Held.{flags_of};
ghost use Rattle.reduced.specs.Reduced.{answer_left, mask_left};
ghost use Rattle.elimination.specs.Eliminations.{Eliminates};
ghost use Rattle.elimination.specs.Between.Left.{left_by};

use crate::eliminate::eliminate;
use crate::greedy::greedy;
use plan::check::check_lodged;
use plan::limits::Plan;
use reduced::finish::{Kept, finish};
use reduced::room::check_room;
use refusal::Refusal;

// Which of document 01's two eliminations.
// An enum and no closure, since `Eliminates` and the rules speak of which one it is.
#[derive(Clone, Copy)]
pub enum Elimination {
    Plain,
    Greedy,
}

// The flags that an elimination leaves of a valid plan.
pub fn flags_left(words: &[u32], plan: &[u32], by: Elimination) -> [bool; Plan::STEPS]
    requires readable { Readable words.now plan.now }
    requires plan_value { valid (initial words.now) (goal words.now) (steps words.now plan.now) ≡ true }
    ensures { result ≡ flags_of plan.now (left_by by words.now plan.now) }
{
    match by {
        Elimination::Plain => eliminate(words, plan),
        Elimination::Greedy => greedy(words, plan),
    }
}

// An elimination of a plan of a task: writes what it leaves to the front of `out`.
pub fn eliminate_plan(
    words: &[u32],
    plan: &[u32],
    out: &mut [u32],
    by: Elimination,
) -> Result<Kept, Refusal>
    ensures { Eliminates by words.now plan.now
        out.old (answer_left result) (mask_left result) out.new }
{
    check_lodged(words, plan, Plan::STEPS, check_room(plan.len(), out.len()))?;
    let flags = flags_left(words, plan, by);
    Ok(finish(words, plan, &flags[..plan.len()], out))
}
