// table: the answers of one transition, read off its column: one loop over the rows with a hole that the contexts need (§1.5).
// A column is for each needed row the row that it fills to. A row comes after its hole child, and is found by what that one fills to.
#![tactic(auto)]

ghost use Rattle.std.specs.Prelude.{◌≡◌, ◌+◌, ◌*◌, ◌<◌, ◌≤◌, length};
ghost use Rattle.std.proofs.lemmas.List.Edits.{sets};
ghost use Rattle.model.specs.Limits.{most_contexts, row_width};
ghost use Rattle.model.specs.Entry.{store_of};
ghost use Rattle.table_columns.specs.Columns.{Answered};
ghost use Rattle.bank.specs.Notes.{room_in};
ghost use Rattle.table_columns.specs.Notes.{filled_note, SameNotes, Cleared, NeededRows, Runs, AllBelow, UsedAt, Column, column_answers};

use bank::notes::NOTE_WIDTH;
use bank::rows;
use bank::terms::Terms;
use model::Row;
use model::limits::MOST_CONTEXTS;

pub mod needed; // needed.rt: the rows that the contexts need, and their positions

// Clears the last column of the notes from one position up to another.
fn clear_run(from: usize, end: usize, notes: &mut [u16])
    requires { end ≤ room_in notes.old }
    ensures { Cleared (room_in notes.old) notes.old from end notes.new }
{
    let last = 3 * (notes.len() / NOTE_WIDTH);
    if from < end {
        notes[last + from..last + end].fill(0);
    }
}

// Fills the needed row at a position, from what its hole child fills to: the next position to fill.
// Where that is not stored, no row of its run is either, and the next position is behind the run.
fn fill_next(bank: &Terms<'_>, n: usize, p: usize, notes: &mut [u16]) -> usize
    requires { let x = store_of bank.now.words bank.now.counts bank.now.used in
        let z = room_in notes.old in
        NeededRows x bank.now.index bank.now.used z notes.old n
        × Runs z notes.old 1 n
        × Column x (filled_note z notes.old 0) z notes.old p
        × (bank.now.used ≤ z)
        × (0 < p)
        × (p ≤ n) }
    ensures { let x = store_of bank.now.words bank.now.counts bank.now.used in
        let z = room_in notes.old in
        Column x (filled_note z notes.old 0) z notes.new result
        × SameNotes 3 z notes.old notes.new
        × (filled_note z notes.new 0 ≡ filled_note z notes.old 0)
        × (p < result)
        × (result ≤ n + 1) }
{
    let z = notes.len() / NOTE_WIDTH;
    let below = notes[z + p] as usize;
    let inner = Row(notes[3 * z + below]);
    let outer = bank.refilled(Row(notes[p]), inner);
    if outer.0 == 0 {
        let end = notes[2 * z + p] as usize;
        clear_run(p, end, notes);
        return end;
    }
    notes[3 * z + p] = outer.0;
    p + 1
}

// The column of a record: one loop over the needed rows, each from its hole child.
pub fn fill_column(bank: &Terms<'_>, n: usize, with: Row, notes: &mut [u16])
    requires { let x = store_of bank.now.words bank.now.counts bank.now.used in
        let z = room_in notes.old in
        NeededRows x bank.now.index bank.now.used z notes.old n
        × Runs z notes.old 1 n
        × (bank.now.used ≤ z)
        × (with.0 < bank.now.used) }
    ensures { let x = store_of bank.now.words bank.now.counts bank.now.used in
        let z = room_in notes.old in
        Column x with.0 z notes.new (n + 1)
        × SameNotes 3 z notes.old notes.new }
{
    // For the proof: `used` says what `bank` is, and so that row 0 has no child.
    let _ = bank.used();
    notes[3 * (notes.len() / NOTE_WIDTH)] = with.0;
    let mut p = 1;
    while p <= n {
        p = fill_next(bank, n, p, notes);
    }
}

// The answers of the rows that positions fill to, into row k of the table.
pub fn read_column(
    words: &[u32],
    used: u16,
    tops: &[u16],
    notes: &[u16],
    k: usize,
    table: &mut [u8],
)
    requires { let z = room_in notes.now in
        (row_width * used ≤ length words.now)
        × Answered words.now used
        × AllBelow z tops.now
        × UsedAt used z notes.now tops.now
        × (most_contexts * k + length tops.now ≤ length table.old) }
    ensures { let z = room_in notes.now in
        let a = column_answers words.now z notes.now tops.now in
        table.new ≡ sets table.old (most_contexts * k) a }
{
    let last = 3 * (notes.len() / NOTE_WIDTH);
    for (j, top) in tops.iter().enumerate() {
        let row = Row(notes[last + *top as usize]);
        table[MOST_CONTEXTS * k + j] = rows::answer_of(words, row) as u8;
    }
}
