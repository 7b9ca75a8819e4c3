// No code: the laws of one block and of an area of blocks (specs/).
#![tactic(auto)]
