// The user's demands 1 and 2 over all services: definitions and theorems alone, in specs/ and proofs/. No code.
#![tactic(auto)]
