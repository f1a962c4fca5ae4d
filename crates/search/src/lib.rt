// The search of the minimal reduction of a plan (document 01: exact reduction), from the starting values.
// unpack: the flags of the steps that choices keep. best: the search.
#![tactic(auto)]

pub mod best;
mod unpack;
