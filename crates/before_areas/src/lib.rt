// That the machine without areas is the machine as it was before there were areas stands in proofs/; there is no code.
#![tactic(auto)]
