// The check of a plan as a service, refusals 1 to 9 and 11, and as what every service of a plan begins with.
ghost use Rattle.std.specs.Prelude.{◌≡◌, ◌≤◌};
ghost use Rattle.tally.specs.Tally.{bounds};
ghost use Rattle.plan.specs.Checked.{plan_checks, answer_in, state_in, Checks};
ghost use Rattle.plan.specs.Between.Lodged.{ChecksLodged};

use crate::limits::Plan;
use crate::list::check_read;
use crate::walk::walk;
use refusal::Refusal;
use sheet::limits::Sheet;
use step::state::{State, initial, size};
use tally::Tally;

// The tally of a valid plan, and its end state.
#[derive(Clone, Copy)]
pub struct Checked {
    pub tally: Tally,
    pub state: State,
}

// Checks a plan of a task, of at most `limit` steps, for which a tally must have room. `besides` is the verdict on what
// a service asks besides, after what is read and before the plan's validity.
pub fn check_lodged(
    words: &[u32],
    plan: &[u32],
    limit: usize,
    besides: Result<(), Refusal>,
) -> Result<Checked, Refusal>
    requires { limit ≤ bounds.steps }
    ensures { ChecksLodged limit words.now plan.now besides
        (answer_in result) (state_in result) }
{
    check_read(words, plan, limit)?;
    besides?;
    let mut values = initial(words);
    let n = size(words);
    match walk(words, plan, &mut values[..n]) {
        Ok(tally) => Ok(Checked {
            tally,
            state: State { values },
        }),
        Err(i) => Err(Refusal::NotAPlan(i)),
    }
}

// Checks a plan of a task.
pub fn check_plan(words: &[u32], plan: &[u32]) -> Result<Checked, Refusal>
    ensures { Checks (plan_checks words.now plan.now)
        words.now plan.now (answer_in result) (state_in result) }
{
    check_lodged(words, plan, Plan::STEPS, Ok(()))
}
