// No code: what this repository must have, by name (proofs/).
#![tactic(auto)]
