// That the live list of expected kinds never fills: proofs alone.
#![tactic(auto)]
