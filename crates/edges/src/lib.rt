// Theorems on the directed edges of triangle lists: see specs/ and proofs/.
#![tactic(auto)]
