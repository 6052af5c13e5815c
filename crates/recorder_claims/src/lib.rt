// Document 01, "Tool": demand 3 and the refusals of each call, for the recorder's tool. Definitions in specs/, theorems in proofs/, and
// no code.

#![tactic(auto)]
