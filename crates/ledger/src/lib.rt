// The ledger of document 01 and the theorem that any list of calls leaves what it says: see specs/
// and proofs/.
#![tactic(auto)]
