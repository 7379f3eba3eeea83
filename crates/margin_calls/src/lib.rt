// This crate is antt only: what opening with margin gives, over bytes (specs/), and what is promised of it and of the quotients behind it (proofs/).
#![tactic(auto)]
