// No code: what every accepted line keeps to, as theorems over the definitions (specs/).
#![tactic(auto)]
