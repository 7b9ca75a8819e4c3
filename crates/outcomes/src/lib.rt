// No code: document 01's lines with known outcomes, and a sample of outside vectors, as theorems over the definitions (specs/, and Samples and Blocks of proofs/).
#![tactic(auto)]
