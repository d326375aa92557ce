// sound: which rows are records and contexts: T2, T3, and T4 without its last clause (§2.3).
// Each function is equal to a definition over the marks of holes; proofs/Laws show that these are model's, where T1 holds.
#![tactic(auto)]

ghost use Rattle.std.specs.Prelude.{◌≡◌, ◌&&◌, ◌+◌, ◌≤◌};
ghost use Rattle.model.specs.Limits.{most_rules, most_states};
ghost use Rattle.model.specs.Base.{no_repeats, all_among};
ghost use Rattle.bank.specs.Index.{size_in};
ghost use Rattle.sound_roles.specs.Marked.{record_by, context_by, records_by, contexts_by, contexts_fit_by};

use model::Row;

pub mod transitions; // transitions.rt: T2

// Whether a number is that of a used row without a hole.
pub fn is_record(used: u16, index: &[u16], row: Row) -> bool
    requires { used ≤ size_in index.now }
    ensures { result ≡ record_by index.now used row.0 }
{
    row.0 < used && !bank_t1::has_hole(index, row)
}

// Whether a number is that of a used row with a hole.
pub fn is_context(used: u16, index: &[u16], row: Row) -> bool
    requires { used ≤ size_in index.now }
    ensures { result ≡ context_by index.now used row.0 }
{
    row.0 < used && bank_t1::has_hole(index, row)
}

// Whether the numbers of a list are all those of records.
pub fn all_records(used: u16, index: &[u16], xs: &[u16]) -> bool
    requires { used ≤ size_in index.now }
    ensures { result ≡ records_by index.now used xs.now }
{
    xs.iter().all(|x| is_record(used, index, Row(*x)))
}

// Whether the numbers of a list are all those of contexts.
pub fn all_contexts(used: u16, index: &[u16], xs: &[u16]) -> bool
    requires { used ≤ size_in index.now }
    ensures { result ≡ contexts_by index.now used xs.now }
{
    xs.iter().all(|x| is_context(used, index, Row(*x)))
}

// T3 but for the length of S: none twice, all of them transitions.
pub fn t3(s: &[u16], t: &[u16]) -> bool
    ensures { let states = s.now in
        result ≡ no_repeats states && all_among states t.now }
{
    run_lists::no_repeats(s) && run_lists::all_among(s, t)
}

// T4 but for its last clause: row 0 first, contexts, none twice, at most one more than S and T have members.
pub fn contexts_fit(used: u16, index: &[u16], size: usize, c: &[u16]) -> bool
    requires { (used ≤ size_in index.now) × (size ≤ most_states + most_rules) }
    ensures { result ≡ contexts_fit_by index.now used size c.now }
{
    c.first() == Some(&0)
        && all_contexts(used, index, c)
        && run_lists::no_repeats(c)
        && c.len() <= 1 + size
}
