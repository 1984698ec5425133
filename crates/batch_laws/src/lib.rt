// The theorems about batches stand in proofs/; there is no code.
#![tactic(auto)]
