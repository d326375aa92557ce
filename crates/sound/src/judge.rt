// T2 to T8 (§2.3) in parts, over a record table that T1 has passed.
ghost use Rattle.std.specs.Prelude.{◌≡◌, false, ◌≤◌, length};
ghost use Rattle.model.specs.Limits.{most_rules, most_states};
ghost use Rattle.model.specs.Table.{tables};
ghost use Rattle.model.specs.Entry.{store_of, answers_in};
ghost use Rattle.table.specs.Answers.{Sized, Placing};
ghost use Rattle.sound.specs.Given.{roles_fit, few_fit, table_fits, question_fits};

use bank::terms::Terms;
use model::Row;
use model::limits::MOST_STATES;
use table::judge;

// T2, T3, and T4 but for its last clause.
pub fn roles_fit(bank: &Terms<'_>, s: &[u16], t: &[u16], c: &[u16]) -> bool
    requires { (length s.now ≤ most_states)
        × (length t.now ≤ most_rules) }
    ensures { let store = store_of bank.now.words bank.now.counts bank.now.used in
        let answers = answers_in bank.now.used bank.now.words in
        result ≡ roles_fit (tables store answers s.now t.now c.now 0 0 false) }
{
    let used = bank.used();
    let index = bank.index();
    sound_roles::transitions::t2(bank, t, s)
        && sound_roles::t3(s, t)
        && sound_roles::contexts_fit(used, index, s.len() + t.len(), c)
}

// T4's last clause: how many contexts there may be.
fn few_fit(states: usize, rules: usize, contexts: usize, missing: bool) -> bool
    requires { (states ≤ most_states) × (rules ≤ most_rules) }
    ensures { result ≡ few_fit states rules contexts missing }
{
    let members = states + rules;
    missing || contexts <= if members == 0 { 1 } else { members }
}

// T4's last clause, T5 and T6.
pub fn table_fits(
    table: &[u8],
    s_in_t: &[u16; MOST_STATES],
    states: usize,
    rules: usize,
    contexts: usize,
    missing: bool,
) -> bool
    requires { Sized table.now rules contexts × Placing s_in_t.now states rules }
    ensures { result ≡ table_fits table.now s_in_t.now states rules contexts missing }
{
    few_fit(states, rules, contexts, missing)
        && judge::all_differ(table, rules, contexts, s_in_t, states)
        && judge::all_yes(table, rules, contexts)
        && (missing || judge::all_once(table, rules, contexts, s_in_t, states))
}

// T8: the open question, or none.
pub fn question_fits(bank: &Terms<'_>, hand: Row, asked: Row, accepted: u8, missing: bool) -> bool
    ensures { result ≡ question_fits bank.now.words bank.now.index bank.now.used hand.0 asked.0 accepted missing }
{
    if asked.0 == 0 {
        return hand.0 == 0 && !missing;
    }
    sound_roles::is_record(bank.used(), bank.index(), asked)
        && bank.answer_of(asked) == 0
        && accepted != 1
}
