// The bytes, lines and words of a planner's text (document 02, C-11).
// limits: the numbers that are told from others. class: what a byte is. lines: what stands behind a line. word: one
// word of a line of numbers.
#![tactic(auto)]

pub mod class;
pub mod limits;
pub mod lines;
pub mod word;
