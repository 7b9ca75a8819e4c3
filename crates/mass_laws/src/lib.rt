// Laws of masses and ledgers, over the definitions alone: proofs/Laws.antt.
#![tactic(auto)]
