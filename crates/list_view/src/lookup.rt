// What a list shows (§6.3), read in the bytes themselves: each lookup says its value for any bytes and any numbers.
ghost use Rattle.std.specs.Prelude.{◌≡◌, get_or};
ghost use Rattle.std.proofs.Math.Option.{some};
ghost use Rattle.model.specs.Automata.{has_left_side, is_final, target_in};
ghost use Rattle.model.specs.Listing.{body_at, behind, rule_in};
ghost use Rattle.model.specs.Entry.{load_seen};
ghost use Rattle.model.specs.View.{target_found};
ghost use Rattle.list.specs.Blocks.{rules_in, after};
ghost use Rattle.list_view.specs.Shown.{sizes_in, rule_at, rule_shown, found_as, target_at, shown_bytes};

use crate::{ShownRule, Sizes};
use list::{body, byte_at, load, rest, states_in, width};
use model::State;

// How many symbols, states and rules there are.
pub fn sizes_in(bytes: &[u8], rules: u16) -> Sizes
    ensures { result ≡ sizes_in bytes.now rules }
{
    let counts = body(bytes);
    let finals = body(rest(bytes));
    Sizes {
        letters: counts.len(),
        states: finals.len(),
        rules,
    }
}

// The child count of a symbol. It is 0 for one that is not in the alphabet, as `Shows` has it.
pub fn count_in(bytes: &[u8], symbol: u8) -> u8
    ensures { result ≡ get_or (body_at bytes.now) symbol 0 }
{
    byte_at(body(bytes), symbol as usize)
}

// Whether a state is final: a state's byte is 1 or 0 (§6.1).
pub fn final_in(bytes: &[u8], q: State) -> bool
    ensures { result ≡ is_final (body_at (behind bytes.now)) (some q.0) }
{
    byte_at(body(rest(bytes)), q.0 as usize) == 1
}

// The body of a rule.
fn rule_body(bytes: &[u8], k: u16) -> &[u8]
    ensures { result.now ≡ body_at (after k (behind (behind bytes.now))) }
{
    let mut at = rest(rest(bytes));
    for _ in 0..k {
        at = rest(at);
    }
    body(at)
}

// The target in a rule's body: its last byte, and 0 where there is none, as in model's `rule_in`.
fn target_byte(body: &[u8]) -> u8
    ensures { result ≡ (rule_in body.now).target }
{
    body.last().copied().unwrap_or(0)
}

// A rule: symbol, child states with 0 in the places that it does not need, target; zeros past the last rule.
pub fn rule_in(bytes: &[u8], k: u16) -> ShownRule
    ensures { result ≡ rule_shown (rule_at k bytes.now) }
{
    let found = rule_body(bytes, k);
    let states = states_in(found);
    ShownRule {
        symbol: byte_at(found, 0),
        states: [
            byte_at(states, 0),
            byte_at(states, 1),
            byte_at(states, 2),
            byte_at(states, 3),
        ],
        target: State(target_byte(found) as u16),
    }
}

// Whether the rule in a body has a left side.
fn left_is(body: &[u8], symbol: usize, states: &[u8]) -> bool
    ensures { result ≡ has_left_side symbol states.now (rule_in body.now) }
{
    byte_at(body, 0) as usize == symbol && states_in(body) == states
}

// The target of the first rule with a left side, among the first rules in the bytes.
pub(crate) fn find_target(bytes: &[u8], rules: u16, symbol: usize, states: &[u8]) -> Option<u8>
    ensures { found_as result ≡ target_found (target_in symbol states.now (rules_in rules bytes.now)) }
{
    let mut at = bytes;
    for _ in 0..rules {
        let found = body(at);
        if left_is(found, symbol, states) {
            return Some(target_byte(found));
        }
        at = rest(at);
    }
    None
}

// The target of the rule with a left side: as many of the states count as the symbol has children.
pub fn target_in(bytes: &[u8], rules: u16, symbol: u8, states: [u8; 4]) -> Option<State>
    ensures { result ≡ target_at bytes.now rules symbol states }
{
    let a = symbol as usize;
    let n = width(body(bytes), a);
    let target = find_target(rest(rest(bytes)), rules, a, &states[..n])?;
    Some(State(target as u16))
}

// The bytes that a view shows: those that load, and none of any others.
#[tactic(auto, using(crate::proofs::Looks::all_shown, crate::proofs::Looks::none_shown))]
pub fn shown_bytes(bytes: &[u8]) -> &[u8]
    ensures { result.now ≡ shown_bytes bytes.now }
{
    if load(bytes).is_some() { bytes } else { &[] }
}

// The rules that a view counts: none for bytes that do not load.
pub fn rules_shown(bytes: &[u8]) -> u16
    ensures { result ≡ (load_seen bytes.now).size }
{
    load(bytes).unwrap_or(0)
}
