// What a table keeps through every call stands in specs/, and its proofs in proofs/; there is no code.
#![tactic(auto)]
