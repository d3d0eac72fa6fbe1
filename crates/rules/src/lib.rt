// Expressions, blocks, statements and a whole sheet as rules: definitions and proofs alone. The code of these rules is the crate exprs.
#![tactic(auto)]
