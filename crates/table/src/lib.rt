// table: the table of answers: answers compared, the state of a transition, the first unknown, the growth of S, T5 and T6 (§1.5).
// A transition has MOST_CONTEXTS bytes, one for each context; transitions and representatives are places in T. Proved equal to model's Table and Steps.
#![tactic(auto)]

ghost use Rattle.std.specs.Prelude.{◌≡◌, true, ℕ, ◌+◌, ◌*◌, ◌<◌, ◌≤◌, length, get_or, take, IfSome};
ghost use Rattle.model.specs.Limits.{most_contexts, most_rules, most_states};
ghost use Rattle.model.specs.Base.{same, among, all_among};
ghost use Rattle.model.specs.Sound.{differ_known};
ghost use Rattle.table.specs.Answers.{answers_at, Sized, Forgotten, unknown_in, context_by, gap_from, is_open, state_at, grow_at, grown_by, Placing, Placed};

use model::limits::{MOST_CONTEXTS, MOST_STATES};
use model::{Context, Row, State};

pub mod judge; // judge.rt: T5 and T6

// The answers of a transition at the first `contexts` contexts.
fn answers(table: &[u8], contexts: usize, a: usize) -> &[u8]
    requires { Sized table.now (a + 1) contexts }
    ensures { result.now ≡ answers_at table.now contexts a }
{
    &table[MOST_CONTEXTS * a..][..contexts]
}

// Whether two transitions have the same answers at the first `contexts` contexts.
#[tactic(auto, using(model::proofs::Laws::Methods::pointwise_same))]
pub fn same_answers(table: &[u8], contexts: usize, a: usize, b: usize) -> bool
    requires { Sized table.now (a + 1) contexts × Sized table.now (b + 1) contexts }
    ensures { result ≡ same (answers_at table.now contexts a) (answers_at table.now contexts b) }
{
    answers(table, contexts, a) == answers(table, contexts, b)
}

// Whether two transitions differ at a context where both answers are known.
pub fn differ_known(table: &[u8], contexts: usize, a: usize, b: usize) -> bool
    requires { Sized table.now (a + 1) contexts × Sized table.now (b + 1) contexts }
    ensures { result ≡ differ_known (answers_at table.now contexts a) (answers_at table.now contexts b) }
{
    let row = answers(table, contexts, a);
    let other = answers(table, contexts, b);
    row.iter()
        .zip(other)
        .any(|(v, w)| *v != 0 && *w != 0 && v != w)
}

// Whether a transition has an answer at some context: 2 for a yes, 0 for an unknown one.
pub fn has_answer(table: &[u8], contexts: usize, a: usize, answer: u8) -> bool
    requires { Sized table.now (a + 1) contexts }
    ensures { result ≡ among answer (answers_at table.now contexts a) }
{
    answers(table, contexts, a).contains(&answer)
}

// The first answer of each transition made unknown: of a table that no longer holds, no row is then taken for known.
pub fn forget(table: &mut [u8], rules: usize)
    requires { (most_contexts * rules ≤ length table.old) × (rules ≤ most_rules) }
    ensures { Forgotten rules table.new }
{
    for k in 0..rules {
        table[MOST_CONTEXTS * k] = 0;
    }
}

// A gap: an unknown answer, by the transition's place in T and the context.
#[derive(Clone, Copy)]
pub struct Gap {
    pub rule: u16,
    pub context: Context,
}

// The first context at which the answer of a transition is unknown.
fn first_in(table: &[u8], contexts: usize, a: usize) -> Option<Context>
    requires { Sized table.now (a + 1) contexts }
    ensures { result ≡ context_by (unknown_in (answers_at table.now contexts a) 0) }
{
    let row = answers(table, contexts, a);
    let at = row.iter().position(|v| *v == 0)?;
    Some(Context(at as u16))
}

// The first gap, if any: transitions in order, and for each the contexts in order (§4.2).
pub fn first_unknown(table: &[u8], rules: usize, contexts: usize) -> Option<Gap>
    requires { Sized table.now rules contexts }
    ensures { result ≡ gap_from table.now contexts 0 rules }
{
    for k in 0..rules {
        if let Some(context) = first_in(table, contexts, k) {
            return Some(Gap {
                rule: k as u16,
                context: context,
            });
        }
    }
    None
}

// The state of a transition: the first representative with its row; past the last for none.
pub fn state_of(
    table: &[u8],
    rules: usize,
    contexts: usize,
    s_in_t: &[u16; MOST_STATES],
    states: usize,
    a: usize,
) -> State
    requires { Sized table.now rules contexts
        × (a < rules)
        × (states ≤ most_states)
        × (length s_in_t.now ≡ most_states)
        × ((i : ℕ) → i < states → get_or s_in_t.now i 0 < rules) }
    ensures { result.0 ≡ state_at table.now contexts (take states s_in_t.now) a }
{
    for (q, p) in s_in_t[..states].iter().enumerate() {
        if same_answers(table, contexts, a, *p as usize) {
            return State(q as u16);
        }
    }
    State(states as u16)
}

// S as places in T: the first `states` of them.
#[derive(Clone, Copy)]
pub struct Places {
    pub states: u16,
    pub s: [u16; MOST_STATES],
}

// T in order: each transition whose row no representative has becomes one (§4.3). None where a 33rd state was wanted.
pub fn grow(
    table: &[u8],
    rules: usize,
    contexts: usize,
    s_in_t: [u16; MOST_STATES],
    states: u16,
) -> Option<Places>
    requires { Sized table.now rules contexts
        × (states ≤ most_states)
        × ((i : ℕ) → i < states → get_or s_in_t i 0 < rules) }
    ensures grown_by { grown_by (grow_at table.now contexts rules (take states s_in_t)) result }
    ensures below { IfSome result (λ p. (i : ℕ) → i < p.states → get_or p.s i 0 < rules) }
{
    let mut s = s_in_t;
    let mut n = states;
    for k in 0..rules {
        let q = state_of(table, rules, contexts, &s, n as usize, k);
        if q.0 == n {
            if n as usize == MOST_STATES {
                return None;
            }
            s[n as usize] = k as u16;
            n += 1;
        }
    }
    Some(Places { states: n, s: s })
}

// S by its places in T.
pub fn find_s_in_t(s: &[u16], t: &[u16], s_in_t: &mut [u16; MOST_STATES])
    requires { (length s.now ≤ most_states)
        × (length t.now ≤ most_rules)
        × (length s_in_t.old ≡ most_states)
        × (all_among s.now t.now ≡ true) }
    ensures { let states = length s.now in
        let rules = length t.now in
        Placing s_in_t.new states rules
        × Placed t.now rules s.now states s_in_t.new }
{
    for (i, row) in s.iter().enumerate() {
        s_in_t[i] = run_lists::place_of(t, Row(*row)) as u16;
    }
}

// Whether an answer of a transition at a context is missing.
pub fn is_missing(table: &[u8], rules: usize, contexts: usize) -> bool
    requires { Sized table.now rules contexts }
    ensures { result ≡ is_open (gap_from table.now contexts 0 rules) }
{
    first_unknown(table, rules, contexts).is_some()
}
