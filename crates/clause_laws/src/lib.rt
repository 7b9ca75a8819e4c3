// Refusals 1 to 3, 5 to 12, 19 and 21, clause by clause: specs/Clauses.antt. No code.
#![tactic(auto)]
