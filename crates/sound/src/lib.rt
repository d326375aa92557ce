// sound: the soundness test whole, on any words and any lists, and what it leaves for a step (§2.3).
#![tactic(auto)]

ghost use Rattle.std.specs.Prelude.{◌≡◌, true, false, ℕ, ◌<◌, ◌≤◌, eqb, length, get_or, take};
ghost use Rattle.model.specs.Limits.{most_states};
ghost use Rattle.model.specs.Base.{no_repeats, all_among};
ghost use Rattle.model.specs.Table.{tables};
ghost use Rattle.model.specs.Sound.{is_sound};
ghost use Rattle.model.specs.Entry.{store_of, answers_in, size_fits, lists_fit, tables_of};
ghost use Rattle.bank.specs.Bank.{Bank};
ghost use Rattle.bank.specs.Notes.{room_in, reps_in};
ghost use Rattle.table.specs.Answers.{Sized, Observed, Placing, Placed, gap_from, is_open};
ghost use Rattle.table_verdict.specs.Rules.{RepsBy, RepsIn};
ghost use Rattle.sound.specs.Working.{Few, Room, Working, WorkingOn, prepared_fit, hand_fits, standing_fits};

use bank::notes::NOTE_WIDTH;
use bank::terms::Terms;
use model::limits::MOST_STATES;
use model::{Lists, Row};

mod judge; // judge.rt: T2 to T8, in parts

// S by its places in T, and whether an answer is missing; where none is, the representative of each transition too, into the notes.
fn represent(
    table: &[u8],
    contexts: usize,
    s: &[u16],
    t: &[u16],
    s_in_t: &mut [u16; MOST_STATES],
    notes: &mut [u16],
) -> bool
    requires { Sized table.now (length t.now) contexts
        × (length s.now ≤ most_states)
        × (length s_in_t.old ≡ most_states)
        × (all_among s.now t.now ≡ true)
        × ((k : ℕ) → k < length t.now → get_or t.now k 0 < room_in notes.old)
        × (no_repeats t.now ≡ true) }
    ensures { let states = length s.now in
        let rules = length t.now in
        let gap = gap_from table.now contexts 0 rules in
        let places = s_in_t.new in
        let reps = reps_in notes.new in
        (result ≡ is_open gap)
        × Placing places states rules
        × Placed t.now rules s.now states places
        × (is_open gap ≡ false → RepsBy table.now contexts (take states places) s.now t.now reps) }
{
    table::find_s_in_t(s, t, s_in_t);
    if table::is_missing(table, t.len(), contexts) {
        return true;
    }
    let size = notes.len() / NOTE_WIDTH;
    table_verdict::find_reps(table, contexts, s_in_t, s, t, &mut notes[..size]);
    false
}

// T1, T2, T3 and T4's first clauses; where they hold, the table of answers is worked out.
fn prepare(
    words: &[u32],
    counts: &[u8],
    used: u16,
    s: &[u16],
    t: &[u16],
    c: &[u16],
    index: &mut [u16],
    table: &mut [u8],
    notes: &mut [u16],
) -> bool
    requires { (size_fits words.now ≡ true)
        × Few s.now t.now c.now
        × Room words.now (length t.now) index.old table.old notes.old }
    ensures result_value { let x = store_of words.now counts.now used in
        let w = answers_in used words.now in
        result ≡ prepared_fit (tables x w s.now t.now c.now 0 0 false) }
    ensures observed { let x = store_of words.now counts.now used in
        let w = answers_in used words.now in
        let rules = length t.now in
        let contexts = length c.now in
        let bank = Bank words.now counts.now used index.new in
        let right = Observed x w t.now rules c.now contexts table.new in
        (result ≡ true → bank × right) }
{
    if !bank_t1::t1(words, counts, used, index) {
        return false;
    }
    let bank = Terms::new(words, counts, used, index);
    if !judge::roles_fit(&bank, s, t, c) {
        return false;
    }
    table_answers::observe(&bank, t, c, table, notes);
    true
}

// T7: the record in hand. The representatives stay.
fn hand_fits(bank: &Terms<'_>, notes: &mut [u16], hand: Row, missing: bool) -> bool
    requires { (bank.now.used ≤ room_in notes.old)
        × (missing ≡ false → RepsIn bank.now.used (reps_in notes.old)) }
    ensures result_value { let reps = reps_in notes.old in
        result ≡ hand_fits bank.now.words bank.now.counts bank.now.used reps bank.now.index hand.0 missing }
    ensures reps { reps_in notes.new ≡ reps_in notes.old }
{
    if hand.0 == 0 {
        return true;
    }
    if missing || !sound_roles::is_record(bank.used(), bank.index(), hand) {
        return false;
    }
    let accepts = table_verdict::accepts_row(bank, notes, hand);
    bank.answer_of(hand) == if accepts { 1 } else { 2 }
}

// How a run stands: the record in hand, the open question, whether it is accepted, by the numbers of the lists that C lends (0 is none).
#[derive(Clone, Copy)]
struct Standing {
    hand: Row,
    asked: Row,
    accepted: u8,
}

// T7 and T8. The representatives stay.
fn standing_fits(bank: &Terms<'_>, notes: &mut [u16], standing: Standing, missing: bool) -> bool
    requires { (bank.now.used ≤ room_in notes.old)
        × (missing ≡ false → RepsIn bank.now.used (reps_in notes.old)) }
    ensures result_value { let reps = reps_in notes.old in
        result ≡ standing_fits bank.now.words bank.now.counts bank.now.used reps bank.now.index standing missing }
    ensures reps { reps_in notes.new ≡ reps_in notes.old }
{
    hand_fits(bank, notes, standing.hand, missing)
        && judge::question_fits(
            bank,
            standing.hand,
            standing.asked,
            standing.accepted,
            missing,
        )
}

// T1 to T8; where they hold, what a step works with is ready.
fn is_sound(
    words: &[u32],
    counts: &[u8],
    used: u16,
    s: &[u16],
    t: &[u16],
    c: &[u16],
    standing: Standing,
    index: &mut [u16],
    table: &mut [u8],
    notes: &mut [u16],
) -> bool
    requires { (size_fits words.now ≡ true)
        × Few s.now t.now c.now
        × Room words.now (length t.now) index.old table.old notes.old }
    ensures result_value { let x = store_of words.now counts.now used in
        let w = answers_in used words.now in
        let accepted = eqb standing.accepted 1 in
        result ≡ is_sound (tables x w s.now t.now c.now standing.hand.0 standing.asked.0 accepted) }
    ensures working { let states = s.now in
        let rules = t.now in
        let contexts = c.now in
        (result ≡ true → Working words.now counts.now used
        states (length states) rules (length rules) contexts (length contexts)
        index.new table.new notes.new) }
{
    if !prepare(words, counts, used, s, t, c, index, table, notes) {
        return false;
    }
    let mut s_in_t = [0u16; MOST_STATES];
    let missing = represent(table, c.len(), s, t, &mut s_in_t, notes);
    let bank = Terms::new(words, counts, used, index);
    judge::table_fits(table, &s_in_t, s.len(), t.len(), c.len(), missing)
        && standing_fits(&bank, notes, standing, missing)
}

// The same of lists as they are lent.
pub fn lists_sound(
    words: &[u32],
    lists: Lists,
    index: &mut [u16],
    table: &mut [u8],
    notes: &mut [u16],
) -> bool
    requires { (size_fits words.now ≡ true)
        × (lists_fit lists ≡ true)
        × Room words.now lists.rules index.old table.old notes.old }
    ensures value { result ≡ is_sound (tables_of words.now lists) }
    ensures working { result ≡ true → WorkingOn words.now lists index.new table.new notes.new }
{
    let standing = Standing {
        hand: Row(lists.hand),
        asked: Row(lists.asked),
        accepted: lists.accepted,
    };
    is_sound(
        words,
        lists.alphabet(),
        lists.used,
        lists.state_rows(),
        lists.rule_rows(),
        lists.context_rows(),
        standing,
        index,
        table,
        notes,
    )
}
