// The effects of a planner's text (document 02, C-11), and the heads of axioms, read in place.
#![tactic(auto)]

pub mod effects;
