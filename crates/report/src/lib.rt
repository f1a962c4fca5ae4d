// What programs print for a task and its plan that is shortened. reported: the lines of a reduction. shortened: all
// that is printed by the minimal reduction.
#![tactic(auto)]

pub mod reported;
pub mod shortened;
