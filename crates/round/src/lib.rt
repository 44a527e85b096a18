#![tactic(auto)]

// Demand 2 from end to end, on the program's own functions: a statement (specs/) with its proof (proofs/), no code.
