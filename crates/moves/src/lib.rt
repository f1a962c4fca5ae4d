// What each step of a plan (document 01: list) costs, and what becomes of it by a mask: a row of words for each.
// tallies: the tallies so far. row: one row. rows: all of them, as a service.
#![tactic(auto)]

mod row;
pub mod rows;
mod tallies;
