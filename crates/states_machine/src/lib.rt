// The machine of a term and the automaton of a sheet: definitions in specs/, theorems in proofs/, no code.
#![tactic(auto)]
