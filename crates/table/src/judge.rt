// T5 and T6 (§2.3) over the table of answers: each transition has a yes, representatives differ, each transition has the row of one of them.
ghost use Rattle.std.specs.Prelude.{◌≡◌, map, ℕ, ◌<◌, ◌≤◌, eqb, take, drop};
ghost use Rattle.model.specs.Base.{all, among};
ghost use Rattle.model.specs.Sound.{differ_known, all_differ, count_same};
ghost use Rattle.table.specs.Answers.{answers_at, Sized, places_from, Placing};

use model::limits::MOST_STATES;

// Whether each transition has a yes at some context.
pub fn all_yes(table: &[u8], rules: usize, contexts: usize) -> bool
    requires { Sized table.now rules contexts }
    ensures { result ≡ all (λ (k : ℕ). among 2 (answers_at table.now contexts k)) (places_from 0 rules) }
{
    (0..rules).all(|k| crate::has_answer(table, contexts, k, 2))
}

// Whether a transition differs from every representative from a place on.
fn differs(
    table: &[u8],
    rules: usize,
    contexts: usize,
    s_in_t: &[u16; MOST_STATES],
    states: usize,
    from: usize,
    a: usize,
) -> bool
    requires { Sized table.now rules contexts
        × (a < rules)
        × (from ≤ states)
        × Placing s_in_t.now states rules }
    ensures { let row = answers_at table.now contexts in
        result ≡ all (differ_known (row a)) (map row (drop from (take states s_in_t.now))) }
{
    let others = &s_in_t[from..states];
    others
        .iter()
        .all(|p| crate::differ_known(table, contexts, a, *p as usize))
}

// Whether each two representatives differ at a context where both answers are known.
pub fn all_differ(
    table: &[u8],
    rules: usize,
    contexts: usize,
    s_in_t: &[u16; MOST_STATES],
    states: usize,
) -> bool
    requires { Sized table.now rules contexts × Placing s_in_t.now states rules }
    ensures { result ≡ all_differ (map (answers_at table.now contexts) (take states s_in_t.now)) }
{
    (0..states).all(|q| differs(
        table,
        rules,
        contexts,
        s_in_t,
        states,
        q + 1,
        s_in_t[q] as usize,
    ))
}

// How many representatives have a transition's row.
fn count_same(
    table: &[u8],
    rules: usize,
    contexts: usize,
    s_in_t: &[u16; MOST_STATES],
    states: usize,
    a: usize,
) -> usize
    requires { Sized table.now rules contexts × (a < rules) × Placing s_in_t.now states rules }
    ensures { let row = answers_at table.now contexts in
        result ≡ count_same (row a) (map row (take states s_in_t.now)) }
{
    let mut n = 0;
    for p in &s_in_t[..states] {
        if crate::same_answers(table, contexts, a, *p as usize) {
            n += 1;
        }
    }
    n
}

// Whether each transition has the row of exactly one representative.
pub fn all_once(
    table: &[u8],
    rules: usize,
    contexts: usize,
    s_in_t: &[u16; MOST_STATES],
    states: usize,
) -> bool
    requires { Sized table.now rules contexts × Placing s_in_t.now states rules }
    ensures { let row = answers_at table.now contexts in
        let own = map row (take states s_in_t.now) in
        result ≡ all (λ (k : ℕ). eqb (count_same (row k) own) 1) (places_from 0 rules) }
{
    (0..rules).all(|k| count_same(table, rules, contexts, s_in_t, states, k) == 1)
}
