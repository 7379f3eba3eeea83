#![tactic(auto)]

// Definitions and laws only: FIPS 202 on strings of bits, and that SHAKE256 on bytes is the same.
