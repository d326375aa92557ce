// step: the search with a record in hand, one lookup a row (§4.1).
// The leftmost innermost row outside S is exchanged for its representative while the answers agree. What a row becomes depends on the row
// alone, so one loop from the bottom works it out for all rows, and the turns follow that. A row is in S if it is its own representative.
#![tactic(auto)]

ghost use Rattle.std.specs.Prelude.{◌≡◌, ◌≤◌, ◌<◌, length, get_or, set};
ghost use Rattle.model.specs.Entry.{store_of, answers_in};
ghost use Rattle.bank.specs.Notes.{room_in, reps_in, down_in, spots_in, exchanged_in};
ghost use Rattle.step_search.specs.Spots.{exchanged_by, TurnsBy, DescendedBy, own_rep, not_own, code_of, outside_by, spot_by, Handed, EndsAt};

use bank::notes;
use bank::notes::NOTE_WIDTH;
use bank::terms::Terms;
use model::Row;

// Whether a row is its own representative.
fn is_rep(reps: &[u16], row: Row) -> bool
    requires { row.0 < length reps.now }
    ensures { result ≡ own_rep reps.now row.0 }
{
    row.0 != 0 && reps[row.0 as usize] == row.0
}

// The place of a row's first child that is not its own representative.
fn first_outside(bank: &Terms<'_>, reps: &[u16], row: Row) -> Option<usize>
    requires { (bank.now.used ≤ length reps.now)
        × (0 < row.0)
        × (row.0 < bank.now.used) }
    ensures { let x = store_of bank.now.words bank.now.counts bank.now.used in
        code_of result ≡ outside_by reps.now x row.0 }
{
    let _ = bank.used(); // the answers read its clause `ready`
    let count = bank.count_of(row) as usize;
    // Child by child: a slice of the four places would be read whole, and most rows have one child or two.
    for k in 0..count {
        let kid = bank.kid_of(row, k) as u16;
        if !is_rep(reps, Row(kid)) {
            return Some(k);
        }
    }
    None
}

// The place down of a row, if it has one; the row at its spot; and the row after the exchange.
#[derive(Clone, Copy)]
pub struct Turn {
    pub place: Option<u8>,
    pub spot: Row,
    pub row: Row,
}

// The turn of a row, from the turns of earlier rows.
fn turn_of(bank: &Terms<'_>, reps: &[u16], at: &[u16], exchanged: &[u16], row: Row) -> Turn
    requires { let x = store_of bank.now.words bank.now.counts bank.now.used in
        (bank.now.used ≤ length reps.now)
        × TurnsBy (not_own reps.now) reps.now x at.now exchanged.now row.0
        × (0 < row.0)
        × (row.0 < bank.now.used) }
    ensures { let x = store_of bank.now.words bank.now.counts bank.now.used in
        let own = reps.now in
        (code_of result.place ≡ outside_by own x row.0)
        × (result.spot.0 ≡ (spot_by own x row.0).row)
        × (result.row.0 ≡ exchanged_by (not_own own) own x row.0) }
{
    let _ = bank.used(); // the answers read its clause `ready`
    let Some(place) = first_outside(bank, reps, row) else {
        return Turn {
            place: None,
            spot: row,
            row: Row(reps[row.0 as usize]),
        };
    };
    let kid = bank.kid_of(row, place) as usize;
    let inner = Row(exchanged[kid]);
    Turn {
        place: Some(place as u8),
        spot: Row(at[kid]),
        row: bank.exchanged(row, place, inner),
    }
}

// Writes the turn of a row down: the three columns behind the representatives. A place is noted plus one, and none is 0.
fn note_turn(notes: &mut [u16], row: Row, turn: Turn)
    requires { row.0 < room_in notes.old }
    ensures { (reps_in notes.new ≡ reps_in notes.old)
        × (down_in notes.new ≡ set (down_in notes.old) row.0 (code_of turn.place))
        × (spots_in notes.new ≡ set (spots_in notes.old) row.0 turn.spot.0)
        × (exchanged_in notes.new ≡ set (exchanged_in notes.old) row.0 turn.row.0) }
{
    let size = notes.len() / NOTE_WIDTH;
    let i = row.0 as usize;
    notes[size + i] = turn.place.map_or(0, |place| place as u16 + 1);
    notes[2 * size + i] = turn.spot.0;
    notes[3 * size + i] = turn.row.0;
}

// All rows from the bottom: the place down, the row at the spot, the exchanged row.
fn descend(bank: &Terms<'_>, notes: &mut [u16])
    requires { (bank.now.used ≤ room_in notes.old)
        × (get_or (reps_in notes.old) 0 0 ≡ 0) }
    ensures { let x = store_of bank.now.words bank.now.counts bank.now.used in
        let own = reps_in notes.old in
        let after = notes.new in
        (reps_in after ≡ own)
        × DescendedBy (not_own own) own x (down_in after) (spots_in after) (exchanged_in after) bank.now.used }
{
    let used = bank.used();
    note_turn(
        notes,
        Row(0),
        Turn {
            place: None,
            spot: Row(0),
            row: Row(0),
        },
    );
    for i in 1..used {
        let reps = notes::column(notes, 0);
        let at = notes::column(notes, 2);
        let exchanged = notes::column(notes, 3);
        let turn = turn_of(bank, reps, at, exchanged, Row(i));
        note_turn(notes, Row(i), turn);
    }
}

// Where the search ends: at a row that is no transition, at an unknown answer, or at an answer that differs; with the record then in hand.
#[derive(Clone, Copy)]
pub enum Found {
    NewTransition(Row),
    Unknown(Row),
    Difference(Row),
}

// Turn after turn: the exchanged record is taken in hand while its answer is that of the one before.
// By a loop: each row follows from the one before, and no list has them.
fn search(bank: &Terms<'_>, reps: &[u16], at: &[u16], exchanged: &[u16], hand: Row) -> Found
    requires { let x = store_of bank.now.words bank.now.counts bank.now.used in
        let answers = answers_in bank.now.used bank.now.words in
        TurnsBy (not_own reps.now) reps.now x at.now exchanged.now bank.now.used
        × Handed x answers reps.now hand.0 }
    ensures { let x = store_of bank.now.words bank.now.counts bank.now.used in
        let answers = answers_in bank.now.used bank.now.words in
        EndsAt x answers reps.now hand.0 result }
{
    let _ = bank.used(); // the answers read its clause `ready`
    let mut h = hand.0;
    loop {
        let spot = at[h as usize];
        if reps[spot as usize] == 0 {
            return Found::NewTransition(Row(h));
        }
        let row = exchanged[h as usize];
        let answer = bank.answer_of(Row(row));
        if answer == 0 {
            return Found::Unknown(Row(h));
        }
        if answer != bank.answer_of(Row(h)) {
            return Found::Difference(Row(h));
        }
        h = row;
    }
}

// The way down of every row, into the notes behind the representatives, and where the search in hand ends.
pub fn find(bank: &Terms<'_>, notes: &mut [u16], hand: Row) -> Found
    requires { let x = store_of bank.now.words bank.now.counts bank.now.used in
        let answers = answers_in bank.now.used bank.now.words in
        Handed x answers (reps_in notes.old) hand.0
        × (bank.now.used ≤ room_in notes.old) }
    ensures fact { let x = store_of bank.now.words bank.now.counts bank.now.used in
        let own = reps_in notes.old in
        let after = notes.new in
        (reps_in after ≡ own)
        × DescendedBy (not_own own) own x (down_in after) (spots_in after) (exchanged_in after) bank.now.used }
    ensures ended { let x = store_of bank.now.words bank.now.counts bank.now.used in
        let answers = answers_in bank.now.used bank.now.words in
        EndsAt x answers (reps_in notes.old) hand.0 result }
{
    descend(bank, notes);
    let reps = notes::column(notes, 0);
    let at = notes::column(notes, 2);
    let exchanged = notes::column(notes, 3);
    search(bank, reps, at, exchanged, hand)
}
