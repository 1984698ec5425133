// The theorem that what is read from an image is what runs stands in proofs/; there is no code.
#![tactic(auto)]
