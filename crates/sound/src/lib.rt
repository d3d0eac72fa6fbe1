// That what the rules read with no error logged is derived, and that what they build is the shape of that: proofs alone.
#![tactic(auto)]
