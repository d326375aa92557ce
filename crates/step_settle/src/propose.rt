// No answer is missing (§4.3): S grows by the table of answers, and the automaton is proposed.
ghost use Rattle.std.specs.Prelude.{◌≡◌, true, ℕ, ◌≤◌, ◌<◌, length, get_or, take};
ghost use Rattle.model.specs.Limits.{most_states};
ghost use Rattle.model.specs.Base.{all_among, over};
ghost use Rattle.model.specs.Entry.{lists_fit};
ghost use Rattle.run_lists.specs.Members.{states_in, rules_in};
ghost use Rattle.table.specs.Answers.{Sized, rows_at};
ghost use Rattle.step_settle.specs.Stepped.{ProposedAs};

use model::Lists;
use model::limits::MOST_STATES;
use model::refusal::Refusal;
use run_lists::change;

// S as its places in T name it.
fn write_states(t: &[u16], s_in_t: &[u16; MOST_STATES], states: usize, s: &mut [u16; MOST_STATES])
    requires { (length s_in_t.now ≡ most_states)
        × (states ≤ most_states)
        × (length s.old ≡ most_states)
        × ((i : ℕ) → i < states → get_or s_in_t.now i 0 < length t.now) }
    ensures { s.new ≡ over (rows_at t.now (take states s_in_t.now)) s.old }
{
    for i in 0..states {
        s[i] = t[s_in_t[i] as usize];
    }
}

// The lists with S grown; short where it would have a 33rd state.
pub fn proposed(lists: Lists, table: &[u8]) -> Result<Lists, Refusal>
    requires { (lists_fit lists ≡ true)
        × (all_among (states_in lists) (rules_in lists) ≡ true)
        × Sized table.now lists.rules lists.contexts }
    ensures { ProposedAs lists table.now result }
{
    let t = lists.rule_rows();
    let mut s_in_t = [0u16; MOST_STATES];
    table::find_s_in_t(lists.state_rows(), t, &mut s_in_t);
    let rules = lists.rules as usize;
    let contexts = lists.contexts as usize;
    let Some(grown) = table::grow(table, rules, contexts, s_in_t, lists.states) else {
        return Err(Refusal::StatesShort);
    };
    let mut s = lists.s;
    write_states(t, &grown.s, grown.states as usize, &mut s);
    Ok(change::proposing(lists, s, grown.states))
}
