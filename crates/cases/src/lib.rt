// No code: the lettered cases, proved by computing the definitions.
#![tactic(auto)]
