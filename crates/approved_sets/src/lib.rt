// The theorem about rules in sets of modules stands in proofs/; there is no code.
#![tactic(auto)]
