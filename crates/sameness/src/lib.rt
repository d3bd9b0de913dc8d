// Two nodes in the same state act alike. These are theorems about definitions: specs/ states them, proofs/ proves them.
#![tactic(auto)]
