// The check of a plan (document 01: list).
// limits: how long a plan may be. list: the checks of what is read, refusals 1 to 9. walk: its steps in turn.
// check: the service.
#![tactic(auto)]

pub mod check;
pub mod limits;
pub mod list;
mod walk;
