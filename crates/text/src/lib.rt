// A text of words, as people write it.
// limits: how long a text is. reader: its reading.
#![tactic(auto)]

pub mod limits;
pub mod reader;
