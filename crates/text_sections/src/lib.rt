// The sections of a planner's text (document 02, C-11), and the reading of it all.
#![tactic(auto)]

mod sections;
pub mod text;
