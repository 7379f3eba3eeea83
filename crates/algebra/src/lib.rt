#![tactic(auto)]

// This crate is antt only: commutative rings, polynomials modulo a rule, evaluation and transforms (specs/), and their laws (proofs/).
