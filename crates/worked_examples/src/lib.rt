// Tables of examples that the checker computes. There is no code.
#![tactic(auto)]
