#![tactic(auto)]

// Demands 2 and 3 on the exported calls and the memory that callers lend them: statements (specs/) with their proofs (proofs/), no code.
