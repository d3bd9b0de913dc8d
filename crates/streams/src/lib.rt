// A whole feed, however it is cut. These are theorems about definitions: specs/ states them, proofs/ proves them.
#![tactic(auto)]
