// Ownership never slides back, over every list of calls. It is a theorem about definitions: specs/ states it, proofs/ proves it.
#![tactic(auto)]
