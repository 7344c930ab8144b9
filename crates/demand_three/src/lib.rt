// Theorems on lists of fields. There is no code.
#![tactic(auto)]
