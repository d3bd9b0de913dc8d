// What is promised of lines and of lists of calls, promised of feeds. These are theorems about definitions: specs/ states them,
// proofs/ proves them.
#![tactic(auto)]
