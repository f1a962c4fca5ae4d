// The job sheet of document 01: the words of a task, which the caller lends.
// limits: what a sheet may hold at most. layout: where its parts stand. group: its groups of facts. effects: those of
// an action. values: what facts write among the values of variables.
#![tactic(auto)]

pub mod effects;
pub mod group;
pub mod layout;
pub mod limits;
pub mod values;
