// Lines of numbers of a planner's text (document 02, C-11), read in place.
// numbers: lines of one number. facts: lines of a variable and its value.
#![tactic(auto)]

pub mod facts;
pub mod numbers;
