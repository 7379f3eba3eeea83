// This crate is antt only: document 01's starred worked examples as one table of cases (specs/), and that all of them hold (proofs/).
#![tactic(auto)]
