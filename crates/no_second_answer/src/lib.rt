// Theorems over the contracts of the functions that users call. There is no code.
#![tactic(auto)]
