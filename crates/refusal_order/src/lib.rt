// Theorems on the order of refusals. There is no code.
#![tactic(auto)]
