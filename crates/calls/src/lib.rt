// This crate is antt only: what each public call answers and writes, over bytes (specs/), and what is promised of the calls (proofs/).
#![tactic(auto)]
