// No code: the order of a line's brackets, as theorems over the definitions (specs/Laws.antt).
#![tactic(auto)]
