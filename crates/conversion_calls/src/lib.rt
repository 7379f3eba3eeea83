// This crate is antt only: what the calls that convert secret keys answer and write, over bytes (specs/), and what is promised of them and of
// keys of either version (proofs/).
#![tactic(auto)]
