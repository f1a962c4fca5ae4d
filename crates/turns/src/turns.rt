// The two turns of the search: at each unflagged step the striking turn, then the keeping turn, each with the best
// reduction found before it. They call each other through the next unflagged step. A flagged step has only the keeping
// turn, and it needs no test: what it needs, and what the goal needs, is asked for where a step that could supply it is
// struck. So what the flagged steps write on the way to the next unflagged one is written at once.
ghost use Rattle.reduction.specs.Between.Search.Turn.{strike as striking, keep as keeping};
ghost use Rattle.turns.specs.Between.Told.{TurnTold};

use crate::chosen::Chosen;
use choice_rows::rows::Choice;
use packed_state::packed::STATE;

// Strikes unflagged step d, where that may be, and goes on with both turns at the next. Behind the last it takes what
// is kept, where that is lower than the best.
#[cycle(keep_strike)]
pub fn strike(
    choices: &[Choice],
    d: usize,
    state: &[u8; STATE],
    held: Chosen,
    best: Chosen,
) -> Chosen
    ensures { TurnTold choices.now striking d state.now held best result }
{
    if let Some(choice) = choices.get(d) {
        if !choice.strike.holds(state) {
            return best;
        }
        let next = choice.struck.write_over(state);
        let struck = strike(choices, d + 1, &next, held, best);
        return keep(choices, d + 1, &next, held, struck);
    }
    if held.tally.is_lower(best.tally) {
        return held;
    }
    best
}

// Keeps unflagged step d, where it can be done, is of use and what is then kept is lower than the best, and goes on
// with both turns at the next.
#[cycle(keep_strike)]
pub fn keep(choices: &[Choice], d: usize, state: &[u8; STATE], held: Chosen, best: Chosen) -> Chosen
    ensures { TurnTold choices.now keeping d state.now held best result }
{
    if let Some(choice) = choices.get(d) {
        let with = held.keep_step(d, choice.cost);
        if !with.tally.is_lower(best.tally) || !choice.keep.holds(state) {
            return best;
        }
        if choice.useful.holds(state) {
            return best;
        }
        let next = choice.kept.write_over(state);
        let struck = strike(choices, d + 1, &next, with, best);
        return keep(choices, d + 1, &next, with, struck);
    }
    best
}
