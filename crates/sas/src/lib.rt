// Planning in SAS+: definitions and theorems alone, in specs/ and proofs/. No code.
#![tactic(auto)]
