// Theorems on values: what is written is read back, and what is read is written back. There is no code.
#![tactic(auto)]
