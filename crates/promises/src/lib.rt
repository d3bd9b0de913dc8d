// What the node promises at the level of a line and of every call. These are theorems about definitions: specs/ states them, proofs/ proves them.
#![tactic(auto)]
