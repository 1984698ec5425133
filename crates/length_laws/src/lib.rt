// That memory keeps its length stands in proofs/.
#![tactic(auto)]
