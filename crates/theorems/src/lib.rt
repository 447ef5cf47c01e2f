// What is proved of all of it.
#![tactic(auto)]
