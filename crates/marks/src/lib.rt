// How often each token of a sheet is read, by marks that are read off a derivation: definitions and proofs alone.
#![tactic(auto)]
