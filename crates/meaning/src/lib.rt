// What the numbers of a planner's text mean (document 02, C-11).
// numbers: where they stand. operator: those of an operator. lines: lines of facts among them. group: a group of
// facts, put in order.
#![tactic(auto)]

pub mod group;
pub mod lines;
pub mod numbers;
pub mod operator;
