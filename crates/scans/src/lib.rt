// Where the data bytes of a field are that has limits, and a terminator or the payload's end behind them.
#![tactic(auto)]

mod min_max; // min_max.rt: the scan for a terminator, and the data bytes up to it

pub use min_max::pos_info_min_max_len;
