// Document 01, "Marked for proof": the cases as a table, and one theorem over it. No code.

#![tactic(auto)]
