// What every program that reads a task and a plan shares (document 01, "Worked lists", on the program).
// input: the reading. pack: words as bytes. long: the refusal of a plan that is too long to be read. opened: what a
// program finds of its input, by all these. output: the lines of a tally and of a refusal, and the writing. answer: all
// of a program but what it asks of a task and its plan.
#![tactic(auto)]

pub mod answer;
pub mod input;
mod long;
pub mod opened;
pub mod output;
pub mod pack;
