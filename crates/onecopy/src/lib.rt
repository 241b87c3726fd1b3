// No code: the single copy, and what holds of every run.
#![tactic(auto)]
