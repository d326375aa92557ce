// The reader (§6.2): the count of rules of bytes that are a list, none for others.
ghost use Rattle.std.specs.Prelude.{◌≡◌, true, List, ℕ, length};
ghost use Rattle.model.specs.Sound.{alphabet_fits};
ghost use Rattle.model.specs.Automata.{Rule};
ghost use Rattle.model.specs.Listing.{rule_in, rule_body_fits, finals_fit, behind_rules, read_finals};
ghost use Rattle.model.specs.Entry.{loaded_by, load_seen};
ghost use Rattle.list.specs.Blocks.{all_below, key_of, is_new, read_rules};
ghost use Rattle.list.specs.Loaded.{counted};

use crate::blocks::{body, byte_at, is_block, rest};
use model::limits::{MOST_RULES, MOST_STATES};
use run_lists::fit;

// Whether each byte is below a bound.
fn all_below(bytes: &[u8], bound: usize) -> bool
    ensures { result ≡ all_below bound bytes.now }
{
    bytes.iter().all(|&byte| (byte as usize) < bound)
}

// Whether the body of kind 2 is at most 32 states, each 0 or 1.
fn finals_fit(finals: &[u8]) -> bool
    ensures { result ≡ finals_fit finals.now }
{
    finals.len() <= MOST_STATES && all_below(finals, 2)
}

// Whether the body of kind 3 is a known symbol, as many known states as it has children, and a known target.
fn rule_fits(counts: &[u8], states: usize, body: &[u8]) -> bool
    ensures { result ≡ rule_body_fits counts.now states body.now }
{
    let [symbol, children @ .., target] = body else {
        return false;
    };
    let symbol = *symbol as usize;
    symbol < counts.len()
        && children.len() == counts[symbol] as usize
        && all_below(children, states)
        && (*target as usize) < states
}

// The child states in a rule's body: all but its first byte and its last.
pub fn states_in(body: &[u8]) -> &[u8]
    ensures { result.now ≡ (rule_in body.now).states }
{
    match body {
        [_, states @ .., _] => states,
        _ => &[],
    }
}

// One number for the left side of the rule in a body: among rules that fit, no two left sides have the same. In four bytes: `contains`
// compares many such numbers at a time, and those of eight one by one.
fn key_of(body: &[u8]) -> u32
    ensures { result ≡ key_of (rule_in body.now) }
{
    // Place by place: the key of any body is made of its first four states (`key_of`).
    let states = states_in(body);
    u32::from(byte_at(body, 0))
        + 64 * u32::from(byte_at(states, 0))
        + 2048 * u32::from(byte_at(states, 1))
        + 65536 * u32::from(byte_at(states, 2))
        + 2097152 * u32::from(byte_at(states, 3))
}

// Whether the rule at the head fits, with a left side whose number none of those before it has.
fn is_rule(counts: &[u8], states: usize, keys: &[u32], at: &[u8]) -> bool
    ensures { result ≡ is_new counts.now states keys.now at.now }
{
    let found = body(at);
    rule_fits(counts, states, found) && !keys.contains(&key_of(found))
}

// What is behind the rules, which are counted: nothing, and there are at most 256 of them.
fn behind_rules(count: usize, bytes: &[u8]) -> Option<u16>
    ensures { let at = bytes.now in
        ((ns fs : List ℕ) (rs : List Rule) → length rs ≡ count → counted result ≡ loaded_by (behind_rules ns fs rs at)) }
{
    if bytes.is_empty() && count <= MOST_RULES {
        Some(count as u16)
    } else {
        None
    }
}

// The blocks of kind 3, each held against the numbers of the left sides before it, and what is behind them.
fn read_rules(counts: &[u8], finals: &[u8], bytes: &[u8]) -> Option<u16>
    requires { (alphabet_fits counts.now ≡ true) × (finals_fit finals.now ≡ true) }
    ensures { counted result ≡ loaded_by (read_rules counts.now finals.now bytes.now) }
{
    // An array with a count beside it, for there is no heap.
    let mut keys = [0u32; MOST_RULES];
    let mut at = bytes;
    for count in 0..MOST_RULES {
        if !is_block(at, 3) {
            return behind_rules(count, at);
        }
        if !is_rule(counts, finals.len(), &keys[..count], at) {
            return None;
        }
        keys[count] = key_of(body(at));
        at = rest(at);
    }
    behind_rules(MOST_RULES, at)
}

// The states at the head of the bytes, and the rules behind them.
fn read_finals(counts: &[u8], bytes: &[u8]) -> Option<u16>
    requires { alphabet_fits counts.now ≡ true }
    ensures { counted result ≡ loaded_by (read_finals counts.now bytes.now) }
{
    if !is_block(bytes, 2) {
        return None;
    }
    let finals = body(bytes);
    if !finals_fit(finals) {
        return None;
    }
    read_rules(counts, finals, rest(bytes))
}

// Load (§3.9): the count of rules of bytes that are a list (§6.2), none for all others.
pub fn load(bytes: &[u8]) -> Option<u16>
    ensures { counted result ≡ load_seen bytes.now }
{
    if !is_block(bytes, 1) {
        return None;
    }
    let counts = body(bytes);
    if !fit::alphabet_fits(counts) {
        return None;
    }
    read_finals(counts, rest(bytes))
}
