// The theorems about modules stand in proofs/; there is no code.
#![tactic(auto)]
