// Wrong answers that the contracts of other crates rule out: proofs alone.
#![tactic(auto)]
