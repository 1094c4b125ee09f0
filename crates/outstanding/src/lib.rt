// The definition of the table of outstanding requests and its laws: no code. What entering, an arriving reply and a look come to stands
// in specs/, and what follows from it in proofs/.
#![tactic(auto)]
