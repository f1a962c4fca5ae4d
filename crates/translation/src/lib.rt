// The sheet of a planner's text (document 02, C-11), as a service.
// translate: the service.
#![tactic(auto)]

pub mod translate;
