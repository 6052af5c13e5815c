// Definitions and laws of two-way text formats (specs/, proofs/). There is no code here.

#![tactic(auto)]
