// Who runs when, from curves: definitions and laws, no code.
#![tactic(auto)]
