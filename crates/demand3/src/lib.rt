// Demand 3, the theorem on packed rules, stands in specs/ and proofs/.
#![tactic(auto)]
