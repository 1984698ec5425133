// Lists in another order: definitions and laws; there is no code.
#![tactic(auto)]
