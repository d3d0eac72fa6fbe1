// Wrong parsers that the demands themselves shut out, and sheets on which each of their premises is met: proofs alone.
#![tactic(auto)]
