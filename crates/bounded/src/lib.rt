// No code: the definitions and laws that every layer cites.
#![tactic(auto)]
