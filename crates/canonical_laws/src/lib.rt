// Laws of the canonical line, over the definitions of crate scope alone. Statements: specs/Laws.antt.
#![tactic(auto)]
