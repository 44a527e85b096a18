#![tactic(auto)]

// The starred examples of document 01 as document 02 changes them, and some of raw bytes, of the bounds of figures, of signed figures, of
// lookups, of repeats, of replies set aside and of the round of a key, as one table (specs/) with its proof (proofs/), no code. Nothing
// depends on this crate.
