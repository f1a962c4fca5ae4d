// A planner's text as data, how it is printed, and what it means: definitions and laws alone, in specs/ and proofs/. No
// code.
#![tactic(auto)]
