// call: emitting from sound tables, by value: 31, 20, then the list of the proposed automaton (§3.7).
// The bytes past the list stay.
#![tactic(auto)]

ghost use Rattle.std.specs.Prelude.{◌≡◌, true, ℕ, ◌+◌, ◌*◌, ◌<◌, ◌≤◌, length, get_or, take};
ghost use Rattle.model.specs.Limits.{most_rules, most_states, row_width};
ghost use Rattle.model.specs.Base.{place_of};
ghost use Rattle.model.specs.Table.{finals_of};
ghost use Rattle.model.specs.Sound.{is_sound};
ghost use Rattle.model.specs.Entry.{store_of, answers_in, size_fits, lists_fit, tables_of, emit_seen, emit_out};
ghost use Rattle.model.specs.Refusals.{emitted_as};
ghost use Rattle.bank.specs.Rows.{Within};
ghost use Rattle.bank.specs.Bank.{Stored};
ghost use Rattle.table_verdict.specs.Rules.{rule_by, Ruled};
ghost use Rattle.list.specs.Flat.{flat_rule, flat_sheet, Short, rule_width};
ghost use Rattle.sound.specs.Proposal.{Proposal};
ghost use Rattle.call_emit.specs.Proposal.{final_byte, Transition, Flat, SixAt, listed_seen, listed_out};

use bank::rows;
use model::limits::{MOST_RULES, MOST_STATES};
use model::refusal::Refusal;
use model::{Lists, Row, State};

// 1 for a state that is final, by its representative.
fn final_byte(words: &[u32], rep: Row) -> u8
    requires { Within words.now rep.0 }
    ensures { result ≡ final_byte words.now rep.0 }
{
    u8::from(rows::answer_of(words, rep) == 2)
}

// A final byte for each state.
fn write_finals(words: &[u32], used: u16, s: &[u16], finals: &mut [u8; MOST_STATES])
    requires { (row_width * used ≤ length words.now)
        × (length s.now ≤ most_states)
        × ((i : ℕ) → i < length s.now → get_or s.now i 0 < used)
        × (length finals.old ≡ most_states) }
    ensures { let states = length s.now in
        let answers = answers_in used words.now in
        (take states finals.new ≡ finals_of answers s.now)
        × (length finals.new ≡ most_states) }
{
    for (q, row) in s.iter().enumerate() {
        finals[q] = final_byte(words, Row(*row));
    }
}

// The state of a representative: its place in S.
#[tactic(auto, using(crate::proofs::Laws::Transition::place_most))]
fn state_of(s: &[u16], rep: Row) -> State
    requires { length s.now ≤ most_states }
    ensures { result.0 ≡ place_of rep.0 0 s.now }
{
    State(run_lists::place_of(s, rep) as u16)
}

// The rule of a transition: symbol, child states, target.
fn rule_bytes(
    words: &[u32],
    counts: &[u8],
    used: u16,
    s: &[u16],
    reps: &[u16],
    row: Row,
) -> [u8; list::RULE_WIDTH]
    requires { let x = store_of words.now counts.now used in
        Stored words.now counts.now used
        × (length s.now ≤ most_states)
        × (used ≤ length reps.now)
        × Transition x s.now reps.now row.0 }
    ensures { let x = store_of words.now counts.now used in
        (length result ≡ rule_width)
        × (flat_rule counts.now result ≡ rule_by x s.now reps.now row.0) }
{
    let symbol = rows::symbol_of(words, row);
    let count = counts[symbol as usize] as usize;
    let mut bytes = [0u8; list::RULE_WIDTH];
    bytes[0] = symbol as u8;
    for i in 0..count {
        let kid = rows::kid_of(words, row, i) as u16;
        let state = state_of(s, Row(kid));
        bytes[1 + i] = state.0 as u8;
    }
    let target = state_of(s, Row(reps[row.0 as usize]));
    bytes[5] = target.0 as u8;
    bytes
}

// Six bytes put at a place.
fn put_six(flat: &mut [u8; list::RULE_WIDTH * MOST_RULES], at: usize, bytes: [u8; list::RULE_WIDTH])
    requires { (length flat.old ≡ rule_width * most_rules) × (at + rule_width ≤ rule_width * most_rules) }
    ensures { SixAt flat.old at bytes flat.new }
{
    flat[at..at + list::RULE_WIDTH].copy_from_slice(&bytes);
}

// The rules in T's order.
fn write_rules(
    words: &[u32],
    counts: &[u8],
    used: u16,
    s: &[u16],
    t: &[u16],
    reps: &[u16],
    flat: &mut [u8; list::RULE_WIDTH * MOST_RULES],
)
    requires { let x = store_of words.now counts.now used in
        Stored words.now counts.now used
        × Ruled x s.now t.now reps.now
        × (length t.now ≤ most_rules)
        × (length flat.old ≡ rule_width * most_rules) }
    ensures { let x = store_of words.now counts.now used in
        let rules = length t.now in
        Flat x s.now t.now reps.now rules flat.new }
{
    for (k, row) in t.iter().enumerate() {
        let bytes = rule_bytes(words, counts, used, s, reps, Row(*row));
        put_six(flat, list::RULE_WIDTH * k, bytes);
    }
}

// The list of an automaton whose rules are given flat: 20 where it does not fit, or the count of its bytes.
fn write_listed(counts: &[u8], finals: &[u8], rules: &[u8], out: &mut [u8]) -> Result<u32, Refusal>
    requires { Short counts.now finals.now rules.now }
    ensures result_value { let a = flat_sheet counts.now finals.now rules.now in
        emitted_as result ≡ listed_seen a out.old }
    ensures bytes { let a = flat_sheet counts.now finals.now rules.now in
        out.new ≡ listed_out a out.old }
{
    let size = list::list_size(counts, finals, rules);
    if out.len() < size as usize {
        return Err(Refusal::ListRoom);
    }
    Ok(list::write_list(counts, finals, rules, out))
}

// The list of the proposed automaton of sound tables with no question open: 20, or the count of its bytes.
fn emit_proposed(words: &[u32], lists: Lists, reps: &[u16], out: &mut [u8]) -> Result<u32, Refusal>
    requires { (size_fits words.now ≡ true)
        × (lists_fit lists ≡ true)
        × (is_sound (tables_of words.now lists) ≡ true)
        × (lists.asked ≡ 0)
        × Proposal words.now lists reps.now }
    ensures value { emitted_as result ≡ emit_seen words.now lists out.old }
    ensures bytes { out.new ≡ emit_out words.now lists out.old }
{
    let counts = lists.alphabet();
    let s = lists.state_rows();
    let t = lists.rule_rows();
    let mut finals = [0u8; MOST_STATES];
    let mut flat = [0u8; list::RULE_WIDTH * MOST_RULES];
    write_finals(words, lists.used, s, &mut finals);
    write_rules(words, counts, lists.used, s, t, reps, &mut flat);
    write_listed(
        counts,
        &finals[..s.len()],
        &flat[..list::RULE_WIDTH * t.len()],
        out,
    )
}

// Emitting from sound tables: 31, 20, then the count of the bytes.
pub fn emit_sound(words: &[u32], lists: Lists, reps: &[u16], out: &mut [u8]) -> Result<u32, Refusal>
    requires { (size_fits words.now ≡ true)
        × (lists_fit lists ≡ true)
        × (is_sound (tables_of words.now lists) ≡ true)
        × (lists.asked ≡ 0 → Proposal words.now lists reps.now) }
    ensures value { emitted_as result ≡ emit_seen words.now lists out.old }
    ensures bytes { out.new ≡ emit_out words.now lists out.old }
{
    if lists.asked != 0 {
        return Err(Refusal::Phase);
    }
    emit_proposed(words, lists, reps, out)
}
