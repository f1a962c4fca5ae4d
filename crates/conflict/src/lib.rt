// The check of an action's effects, refusal 16: no two of them may give one variable different values in one state.
// find: the place of the first action in which two may. clash: the effects of an action. table: what facts say of each
// variable.
#![tactic(auto)]

mod clash;
pub mod find;
mod table;
