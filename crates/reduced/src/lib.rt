// A reduction as services answer with it: as flags, by its tally and its mask, and by the list left.
// held: a reduction as flags. room: refusal 10. tallied: the tally of a reduction.
// finish: what is told and written of it. through: a reduction of what a reduction leaves, as one mask.
#![tactic(auto)]

pub mod finish;
pub mod held;
pub mod room;
pub mod tallied;
pub mod through;
