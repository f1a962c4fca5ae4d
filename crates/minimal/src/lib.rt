// The minimal reduction of a plan as a service (document 01: exact reduction).
// within: with any limit of unmarked steps that the search has room for. reduce: with document 01's.
#![tactic(auto)]

pub mod reduce;
pub mod within;
