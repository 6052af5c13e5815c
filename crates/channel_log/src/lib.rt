// Document 01's log, and its claim about every list of calls: definitions in specs/, theorems in proofs/, and no code.

#![tactic(auto)]
