// Theorems on what C calls. There is no code.
#![tactic(auto)]
