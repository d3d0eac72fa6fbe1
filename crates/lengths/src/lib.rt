// What FLAGS says of a record's children, and that no list of a sheet is too long for it: definitions and proofs alone.
#![tactic(auto)]
