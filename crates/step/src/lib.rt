// Doing one step in a state (document 01, "Doing a step, and a valid list").
// state: a state in an array, and the starting values. facts: the test of an assignment and the writes of an effect.
// advance: one action in a lent state, and the goal there. one: one step as a service, by value and on a lent state.
#![tactic(auto)]

pub mod advance;
pub mod facts;
pub mod one;
pub mod state;
