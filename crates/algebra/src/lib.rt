#![tactic(auto)]

// Fields, sums, Cauchy systems and residues modulo a prime: definitions in specs/, theorems in proofs/, no code.
