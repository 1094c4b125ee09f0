// The definitions of the format and their laws: no code. What every reader and writer is proved against stands in specs/, and
// what follows from it in proofs/.
#![tactic(auto)]
