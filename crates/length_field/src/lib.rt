// Where the data bytes of a field are that has a length field in front of them.
#![tactic(auto)]

mod leading; // leading.rt: the length field, and the data bytes behind it

pub use leading::pos_info_leading_len;
