// The plain engine and the fast one agree. These are theorems about definitions: specs/ states them, proofs/ proves them.
#![tactic(auto)]
