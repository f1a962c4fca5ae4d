// The form of a record, a task with its plan and further words, among bytes (document 01, "Worked lists", on the
// program).
// word: little-endian words among bytes. frame: where a record ends, and the forms that it has. framing: which of these
// it is, and how much must be read to tell. unpack: bytes as words.
#![tactic(auto)]

pub mod frame;
pub mod framing;
pub mod unpack;
pub mod word;
