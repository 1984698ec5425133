// The theorems about listing files of both kinds stand in proofs/; there is no code.
#![tactic(auto)]
