// The rows that document 01 marks P, as a table. There is no code: specs/ has the table, proofs/ the theorem.
#![tactic(auto)]
