// table: the proposed automaton at work: the representative of each transition, and the verdict on stored and on listed records (§1.5).
// A rule is found through the index: the row with this symbol over the children's representatives, if it is a transition.
#![tactic(auto)]

ghost use Rattle.std.specs.Prelude.{◌≡◌, true, cond, ℕ, ◌<◌, ◌≤◌, eqb, length, get_or, take};
ghost use Rattle.model.specs.Limits.{most_listed, most_states};
ghost use Rattle.model.specs.Base.{no_repeats};
ghost use Rattle.model.specs.Facts.{Parses};
ghost use Rattle.model.specs.Entry.{store_of, answers_in};
ghost use Rattle.model.specs.declared.Verdict.{Verdict};
ghost use Rattle.bank.specs.Rows.{answer_in};
ghost use Rattle.bank.specs.Index.{find_in};
ghost use Rattle.bank.specs.Notes.{room_in, column_in, reps_in};
ghost use Rattle.table.specs.Answers.{Sized};
ghost use Rattle.table_verdict.specs.Rules.{RepsBy, RepsIn, rep_row, led_list, accepts_by, verdict_list_by};

use bank::notes;
use bank::notes::NOTE_WIDTH;
use bank::terms::Terms;
use bank_listed::stack::Stack;
use model::limits::MOST_STATES;
use model::{Row, Verdict};

// The representative of each transition; 0 for a row that is none.
pub fn find_reps(
    table: &[u8],
    contexts: usize,
    s_in_t: &[u16; MOST_STATES],
    s: &[u16],
    t: &[u16],
    reps: &mut [u16],
)
    requires { Sized table.now (length t.now) contexts
        × (length s.now ≤ most_states)
        × (length s_in_t.now ≡ most_states)
        × ((i : ℕ) → i < length s.now → get_or s_in_t.now i 0 < length t.now)
        × ((k : ℕ) → k < length t.now → get_or t.now k 0 < length reps.old)
        × (no_repeats t.now ≡ true) }
    ensures { let in_t = take (length s.now) s_in_t.now in
        RepsBy table.now contexts in_t s.now t.now reps.new }
{
    reps.fill(0);
    for (k, row) in t.iter().enumerate() {
        let q = table::state_of(table, t.len(), contexts, s_in_t, s.len(), k);
        if let Some(rep) = s.get(q.0 as usize) {
            reps[*row as usize] = *rep;
        }
    }
}

// The representative of a symbol over children by their representatives; 0 where the rule is missing.
// 0 is none here and in row_rep, as in the notes that are read and written (RepsBy, rep_row): an Option would be made of 0 and turned back.
// Copied to where it is called, as the lookup in it is.
#[inline(always)]
#[tactic(auto, using(bank::proofs::Laws::Children::find_used))]
fn target_of(bank: &Terms<'_>, reps: &[u16], symbol: u32, places: [u32; 4]) -> Row
    requires { bank.now.used ≤ length reps.now }
    ensures { let found = find_in bank.now.words bank.now.used symbol places in
        result.0 ≡ get_or reps.now found 0 }
{
    let _ = bank.used(); // the answers read its clause `ready`
    let found = bank.find(symbol, places);
    Row(reps[found.0 as usize])
}

// The representative of a row's state, from those of earlier rows.
fn row_rep(bank: &Terms<'_>, reps: &[u16], led: &[u16], row: Row) -> Row
    requires { let x = store_of bank.now.words bank.now.counts bank.now.used in
        (bank.now.used ≤ length reps.now)
        × (bank.now.used ≤ length led.now)
        × (0 < row.0)
        × (row.0 < bank.now.used)
        × ((i : ℕ) → i < row.0 → get_or led.now i 0 ≡ rep_row x reps.now i) }
    ensures { let x = store_of bank.now.words bank.now.counts bank.now.used in
        result.0 ≡ rep_row x reps.now row.0 }
{
    let _ = bank.used(); // the answers read its clause `ready`
    let count = bank.count_of(row) as usize;
    let mut places = [0u32; 4];
    for k in 0..count {
        let rep = led[bank.kid_of(row, k) as usize];
        if rep == 0 {
            return Row(0);
        }
        places[k] = rep as u32;
    }
    target_of(bank, reps, bank.symbol_of(row), places)
}

// The representative of the state of every row up to a row, by one loop from the bottom, into the second column of the notes.
fn row_reps(bank: &Terms<'_>, upto: Row, notes: &mut [u16])
    requires { (bank.now.used ≤ room_in notes.old)
        × (upto.0 < bank.now.used) }
    ensures { let x = store_of bank.now.words bank.now.counts bank.now.used in
        let reps = reps_in notes.old in
        (reps_in notes.new ≡ reps)
        × ((i : ℕ) → i ≤ upto.0 → get_or (column_in notes.new 1) i 0 ≡ rep_row x reps i) }
{
    let _ = bank.used(); // the answers read its clause `ready`
    let size = notes.len() / NOTE_WIDTH;
    notes[size] = 0;
    for i in 1..upto.0 + 1 {
        let reps = notes::column(notes, 0);
        let led = notes::column(notes, 1);
        let rep = row_rep(bank, reps, led, Row(i));
        notes[size + i as usize] = rep.0;
    }
}

// The verdict on a stored record. The representatives stay.
pub fn accepts_row(bank: &Terms<'_>, notes: &mut [u16], row: Row) -> bool
    requires { RepsIn bank.now.used (reps_in notes.old)
        × (bank.now.used ≤ room_in notes.old)
        × (row.0 < bank.now.used) }
    ensures result_value { let x = store_of bank.now.words bank.now.counts bank.now.used in
        let answers = answers_in bank.now.used bank.now.words in
        result ≡ accepts_by x answers (reps_in notes.old) row.0 }
    ensures reps { reps_in notes.new ≡ reps_in notes.old }
{
    let _ = bank.used(); // the answers read its clause `ready`
    row_reps(bank, row, notes);
    let size = notes.len() / NOTE_WIDTH;
    let rep = notes[size + row.0 as usize];
    rep != 0 && is_final(bank, Row(rep))
}

// Whether a state is final, by its representative.
fn is_final(bank: &Terms<'_>, rep: Row) -> bool
    requires { rep.0 < bank.now.used }
    ensures { result ≡ eqb (answer_in bank.now.words rep.0) 2 }
{
    bank.answer_of(rep) == 2
}

// Where the run on a listed record ends, by a stack of representatives: at that of its state, or stuck at the place of the first symbol without a rule.
pub fn run_list(bank: &Terms<'_>, reps: &[u16], symbols: &[u8]) -> Result<Row, u16>
    requires { (bank.now.used ≤ length reps.now)
        × Parses bank.now.counts 0 symbols.now
        × (length symbols.now ≤ most_listed) }
    ensures { let x = store_of bank.now.words bank.now.counts bank.now.used in
        result ≡ led_list x reps.now symbols.now }
{
    let _ = bank.used(); // the answers read its clause `ready`
    let mut stack = Stack::new();
    for (at, symbol) in symbols.iter().enumerate() {
        let count = bank.arity_of(*symbol) as usize;
        let places = stack.top_places(count);
        let rep = target_of(bank, reps, *symbol as u32, places);
        if rep.0 == 0 {
            return Err(at as u16);
        }
        stack.put(count, rep);
    }
    Ok(stack.root())
}

// The verdict where a run ended at a state, by its representative.
fn verdict_at(bank: &Terms<'_>, rep: Row) -> Verdict
    requires { rep.0 < bank.now.used }
    ensures { result ≡ cond (eqb (answer_in bank.now.words rep.0) 2) Verdict.Accepted Verdict.NotFinal }
{
    if is_final(bank, rep) {
        Verdict::Accepted
    } else {
        Verdict::NotFinal
    }
}

// The verdict on a listed record.
pub fn verdict_on(bank: &Terms<'_>, reps: &[u16], symbols: &[u8]) -> Verdict
    requires { RepsIn bank.now.used reps.now
        × Parses bank.now.counts 0 symbols.now
        × (length symbols.now ≤ most_listed) }
    ensures { let x = store_of bank.now.words bank.now.counts bank.now.used in
        let answers = answers_in bank.now.used bank.now.words in
        result ≡ verdict_list_by x answers reps.now symbols.now }
{
    let _ = bank.used(); // the answers read its clause `ready`
    match run_list(bank, reps, symbols) {
        Ok(rep) => verdict_at(bank, rep),
        Err(place) => Verdict::NoRule(place),
    }
}
