// One step as a service: by value, and on a lent state.
ghost use Rattle.step.specs.Step.{Steps};
ghost use Rattle.step.specs.Between.Tries.{Tries};

use crate::advance::advance;
use crate::state::State;
use refusal::Refusal;
use sheet::layout::actions;
use sheet_check::check::check_sheet;

// A step's answer, and the state after it.
#[derive(Clone, Copy)]
pub struct Stepped {
    pub verdict: Result<(), Refusal>,
    pub state: State,
}

// Where a refusal places the step: it is the only one.
const POSITION: usize = 1;

// Does one step where the sheet is accepted, or refuses it and gives the state back as it was.
fn try_step(words: &[u32], state: State, action: u32) -> Stepped
    ensures { Tries words.now state.values action result.verdict result.state.values }
{
    if actions(words) <= action as usize {
        return Stepped {
            verdict: Err(Refusal::UnknownAction(POSITION)),
            state,
        };
    }
    let mut values = state.values;
    if advance(words, &mut values, action) {
        return Stepped {
            verdict: Ok(()),
            state: State { values },
        };
    }
    Stepped {
        verdict: Err(Refusal::NotAPlan(POSITION)),
        state,
    }
}

// Does one step in a state, or refuses it and gives the state back as it was.
pub fn step(words: &[u32], state: State, action: u32) -> Stepped
    ensures { Steps words.now state.values action result.verdict result.state.values }
{
    match check_sheet(words) {
        Ok(()) => try_step(words, state, action),
        Err(refusal) => Stepped {
            verdict: Err(refusal),
            state,
        },
    }
}

// Does one step in a lent state, or refuses it and leaves the state as it was.
pub fn step_in_place(words: &[u32], state: &mut State, action: u32) -> Result<(), Refusal>
    ensures { Steps words.now state.old.values action result state.new.values }
{
    let stepped = step(words, *state, action);
    *state = stepped.state;
    stepped.verdict
}
