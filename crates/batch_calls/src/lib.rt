// This crate is antt only: what the calls on batches answer and write, over bytes (specs/), and what is promised of them (proofs/).
#![tactic(auto)]
