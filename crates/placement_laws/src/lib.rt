// Laws of placements and of the listing, over the definitions alone: specs/Laws.antt.
#![tactic(auto)]
