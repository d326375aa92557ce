// What each call about a list returns, from any bytes (§6.3): they are read whole, then the one part is looked up.
ghost use Rattle.std.specs.Prelude.{◌≡◌, cond, ltb, length};
ghost use Rattle.std.proofs.Math.Option.{some};
ghost use Rattle.model.specs.Automata.{is_final};
ghost use Rattle.model.specs.View.{present, absent, rule_absent, sizes_seen, children_seen, final_seen, rule_seen, target_seen};
ghost use Rattle.list_view.specs.Shown.{found_as};

use crate::ShownRule;
use crate::lookup::{count_in, find_target, rule_in, sizes_in};
use list::{body, load, rest};
use model::refusal::Refusal;
use model::{Found, ListRule, ListSizes};

// A value or none, as C gets it.
fn found(value: Option<u8>) -> Found
    ensures { result ≡ found_as value }
{
    match value {
        Some(value) => Found {
            number: 0,
            found: 1,
            value,
        },
        None => Found {
            number: 0,
            found: 0,
            value: 0,
        },
    }
}

// No value, for the bytes are no list.
fn no_list() -> Found
    ensures { result ≡ absent 21 }
{
    Found {
        number: u8::from(Refusal::NoList) as u16,
        found: 0,
        value: 0,
    }
}

// How many symbols, states and rules the list has.
pub fn sizes_seen(bytes: &[u8]) -> ListSizes
    ensures { result ≡ sizes_seen bytes.now }
{
    let Some(rules) = load(bytes) else {
        return ListSizes {
            number: u8::from(Refusal::NoList) as u16,
            symbols: 0,
            states: 0,
            rules: 0,
        };
    };
    let sizes = sizes_in(bytes, rules);
    ListSizes {
        number: 0,
        symbols: sizes.letters as u16,
        states: sizes.states as u16,
        rules,
    }
}

// The child count of a symbol, if the alphabet has it.
pub fn children_seen(bytes: &[u8], symbol: u8) -> Found
    ensures { result ≡ children_seen bytes.now symbol }
{
    let Some(_) = load(bytes) else {
        return no_list();
    };
    found(body(bytes).get(symbol as usize).copied())
}

// Whether a state is final, 1 or 0, if it is there.
fn final_at(finals: &[u8], q: usize) -> Option<u8>
    ensures { let fs = finals.now in
        found_as result ≡ cond (ltb q (length fs)) (present (cond (is_final fs (some q)) 1 0)) (absent 0) }
{
    let byte = *finals.get(q)?;
    Some((byte == 1) as u8)
}

// Whether a state is final.
pub fn final_seen(bytes: &[u8], state: u8) -> Found
    ensures { result ≡ final_seen bytes.now state }
{
    let Some(_) = load(bytes) else {
        return no_list();
    };
    found(final_at(body(rest(bytes)), state as usize))
}

// No rule, with 21 where the bytes are no list.
fn no_rule(number: u8) -> ListRule
    ensures { result ≡ rule_absent number }
{
    ListRule {
        number,
        found: 0,
        symbol: 0,
        children: 0,
        states: [0; 4],
        target: 0,
    }
}

// A rule by its number.
pub fn rule_seen(bytes: &[u8], k: u16) -> ListRule
    ensures { result ≡ rule_seen bytes.now k }
{
    let Some(rules) = load(bytes) else {
        return no_rule(u8::from(Refusal::NoList));
    };
    if rules <= k {
        return no_rule(0);
    }
    let ShownRule {
        symbol,
        states,
        target,
    } = rule_in(bytes, k);
    ListRule {
        number: 0,
        found: 1,
        symbol,
        children: count_in(bytes, symbol),
        states,
        target: target.0 as u8,
    }
}

// The target of the rule with a left side.
pub fn target_seen(bytes: &[u8], symbol: u8, states: &[u8]) -> Found
    ensures { result ≡ target_seen bytes.now symbol states.now }
{
    let Some(rules) = load(bytes) else {
        return no_list();
    };
    found(find_target(rest(rest(bytes)), rules, symbol as usize, states))
}
