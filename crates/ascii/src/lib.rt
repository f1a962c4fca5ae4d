// Texts as bytes: definitions and laws alone, in specs/ and proofs/. No code.
#![tactic(auto)]
