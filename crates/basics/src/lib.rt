// No code: small laws that many proofs cite.
#![tactic(auto)]
