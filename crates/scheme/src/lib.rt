#![tactic(auto)]

// The pooling scheme as definitions and promises (specs/) with their proofs (proofs/), no code.
