// No code: the bridge from a state to the one-copy run, and what is promised of every run.
#![tactic(auto)]
