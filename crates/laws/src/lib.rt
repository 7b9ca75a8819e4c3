// No code: the demands, put together from the laws over the definitions (specs/Demands.antt).
#![tactic(auto)]
