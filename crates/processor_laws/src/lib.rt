// The laws of iterated cycles stand in proofs/; there is no code.
#![tactic(auto)]
