#![tactic(auto)]

// The scheme over any setting and its exactness, in antt only: see specs/ and proofs/.
