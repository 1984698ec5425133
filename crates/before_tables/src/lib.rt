// That the machine without a table is the machine as it was before there were tables stands in proofs/; there is no code.
#![tactic(auto)]
