// The tender's demands, over what the calls ensure: specs/Promises.antt. No code.
#![tactic(auto)]
