// The mathematics of rules and tables: definitions in specs/, theorems in proofs/, and no code.

#![tactic(auto)]
