// list: a loaded list, shown over a host's bytes without being copied (§6.3).
// Each function is equal to a definition of model.
#![tactic(auto)]

mod held;
mod lookup;
mod seen;

pub use held::{child_count, is_final, rule, sizes_of, target_of, view};
pub use lookup::{count_in, final_in, rule_in, rules_shown, shown_bytes, sizes_in, target_in};
use model::State;
pub use seen::{children_seen, final_seen, rule_seen, sizes_seen, target_seen};

// How many symbols, states and rules a list has.
#[derive(Clone, Copy)]
pub struct Sizes {
    pub letters: usize,
    pub states: usize,
    pub rules: u16,
}

// A rule of a list: the places in `states` that its symbol does not need hold 0.
#[derive(Clone, Copy)]
pub struct ShownRule {
    pub symbol: u8,
    pub states: [u8; 4],
    pub target: State,
}

// A list in a host's bytes (§6.3): it refers to them and holds no copy of any part. `rules` is what load counts.
#[derive(Clone, Copy)]
pub struct LoadedList<'a> {
    pub bytes: &'a [u8],
    pub rules: u16,
}
