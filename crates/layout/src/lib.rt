// A task and its plan as a text for people.
// sections: the parts of a task, each under its comment. shown: the text of the words that bytes are.
#![tactic(auto)]

mod sections;
pub mod shown;
