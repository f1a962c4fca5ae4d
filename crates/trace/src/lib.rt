// What the walk along a plan that looks for its landmarks knows of each fact: which step supports it.
// traces: the tables of the walk.
#![tactic(auto)]

pub mod traces;
