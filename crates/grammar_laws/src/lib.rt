// The grammar of the lines, apart from any reader, and what the reader of the definitions has to do with it. Statements: specs/Laws.antt.
#![tactic(auto)]
