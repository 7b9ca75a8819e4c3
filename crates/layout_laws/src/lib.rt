// No code: laws of the tables as they lie in the lent areas, as theorems over the definitions (proofs/).
#![tactic(auto)]
