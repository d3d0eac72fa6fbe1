// That the rules are blind to what the lent buffers held before: proofs alone.
#![tactic(auto)]
