// No code: laws of the reader and of the refusals, as theorems over the definitions (specs/Laws.antt, proofs/).
#![tactic(auto)]
