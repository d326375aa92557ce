// list: the emitted list: blocks read and written (§6).
// Each function is equal to a definition of model.
#![tactic(auto)]

mod blocks;
mod read;
mod write;

pub use blocks::{body, byte_at, rest};
pub use read::{load, states_in};
pub use write::{RULE_WIDTH, list_size, put_bytes, width, write_list};
