// The theorems about sets of modules stand in proofs/; there is no code.
#![tactic(auto)]
