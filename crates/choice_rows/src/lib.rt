// The choices at the unflagged steps of a plan, told without a walk along the flagged ones between them: what is asked
// of a state and done to it at an unflagged step are rows of flags and bytes.
// rows: the choice at each unflagged step, with its rows.
#![tactic(auto)]

pub mod rows;
