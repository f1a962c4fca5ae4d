// The form of a planner's text (document 02, C-11), line by line.
// limits: how long a text is. reader: keywords, names and what is repeated, and how far the text is read.
// tests: what is repeated.
#![tactic(auto)]

pub mod limits;
pub mod reader;
#[cfg(test)]
mod tests;
