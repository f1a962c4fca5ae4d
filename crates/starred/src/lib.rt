// Document 01's worked lists with a star, and its causes of refusal, from the words of sheets: tables in specs/ and
// theorems in proofs/ alone. No code.
#![tactic(auto)]
