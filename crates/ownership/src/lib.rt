// Laws over what a write and a clear make of each bit of a payload. There is no code.
#![tactic(auto)]
