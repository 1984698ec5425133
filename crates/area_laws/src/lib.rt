// What stack writes do to memory stands in specs/, and its proofs in proofs/; there is no code.
#![tactic(auto)]
