// A state of the search of the minimal reduction: a byte for each variable, tested and written by rows.
// packed: such a state, and a row tested in it or written over it.
#![tactic(auto)]

pub mod packed;
