// Laws of the register kept in blocks: specs/Laws.antt; over sequences of calls: specs/AsMap.antt.
#![tactic(auto)]
