// That the rules read whatever the grammar derives, at just the readings, records and levels of the derivation: definitions and proofs alone.
#![tactic(auto)]
