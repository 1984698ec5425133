// The theorems about images and their listings stand in proofs/; there is no code.
#![tactic(auto)]
