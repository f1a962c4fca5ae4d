// Which bytes have the form of a planner's text, line by line, and what their numbers are: those that a text prints.
// Definitions and laws alone, in specs/ and proofs/. No code.
#![tactic(auto)]
