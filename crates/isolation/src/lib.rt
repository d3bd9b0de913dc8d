// Lookups that run beside each other: document 02, [4]. These are theorems about definitions: specs/ states them, proofs/ proves them.
#![tactic(auto)]
