// The sheets whose outcomes the document gives as proved, in one table, and that `parse` comes to them: definitions and proofs alone.
#![tactic(auto)]
