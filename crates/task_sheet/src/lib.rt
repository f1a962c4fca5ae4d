// The sheet of the task that the numbers of a planner's text mean (document 02, C-11).
// action: the parts that hold facts. parts: all parts and their pairs. build: the sheet.
#![tactic(auto)]

mod action;
pub mod build;
mod parts;
