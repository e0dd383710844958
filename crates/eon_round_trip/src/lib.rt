// Reading undoes layout.
#![tactic(auto)]
