// The check of a job sheet, refusals 1 to 7 and 16.
// check: the check. header, pairs, variables, facts, costs: one cause of refusal each, or three for the header. Cause
// 16 has a crate of its own.
#![tactic(auto)]

pub mod check;
mod costs;
mod facts;
mod header;
mod pairs;
mod variables;
