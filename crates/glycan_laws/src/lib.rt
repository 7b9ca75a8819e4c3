// Laws of glycan compositions, over the definitions alone: specs/Laws.antt. No code.
#![tactic(auto)]
