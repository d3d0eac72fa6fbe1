// The grammar of Lucia as derivations over token lists: definitions and proofs alone.
#![tactic(auto)]
