// The sweep functions of del-msh, transcribed, and the theorem that their bodies are document
// 01's: see specs/ and proofs/.
#![tactic(auto)]
