#![tactic(auto)]

// This crate is antt only: lists that definitions are written with (specs/), and laws on lists, bits and loops (proofs/).
