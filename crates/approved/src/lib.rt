// What is approved is what runs: from the listing that an office approves to the processor of a centre. There is no code: specs/ has the claims,
// proofs/ the theorems.
#![tactic(auto)]
