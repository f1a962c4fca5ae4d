// The two turns of the search of the minimal reduction, from unflagged step to unflagged step.
// chosen: a reduction on its way, with one step more. turns: the striking turn and the keeping turn.
#![tactic(auto)]

pub mod chosen;
pub mod turns;
