// Reductions of a plan, landmarks and action elimination: definitions and theorems alone, in specs/ and proofs/. No
// code.
#![tactic(auto)]
