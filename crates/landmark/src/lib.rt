// The landmarks of a plan (document 01: marks, by the rule of document 02).
// rows: the steps that support what a position needs. walks: the
// two walks of a pass. flags: the passes that find the landmarks.
// marks: what every service that needs them begins with, and the marks as a service.
#![tactic(auto)]

mod flags;
pub mod marks;
mod rows;
mod walks;
