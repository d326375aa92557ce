// The needed rows: the members of C and the rows with a hole that they lead down to, in ascending order (§1.5).
// From each member the way down is marked, up to a row that is marked already; the marked rows get positions upwards.
ghost use Rattle.std.specs.Prelude.{◌≡◌, ℕ, ◌<◌, ◌≤◌, length, get_or};
ghost use Rattle.model.specs.Limits.{most_rows};
ghost use Rattle.model.specs.Entry.{store_of};
ghost use Rattle.bank.specs.Index.{hole_of};
ghost use Rattle.table_columns.specs.Columns.{Contexts, Used};
ghost use Rattle.bank.specs.Notes.{room_in};
ghost use Rattle.table_columns.specs.Notes.{row_note, mark_note, SameNotes, MembersMarked, HoledMarks, KidsMarked, StayMarked, NeededRows, AllSeated, hole_first, needed_more, Runs, Tops, AllBelow, TopsRead};

use crate::clear_run;
use bank::notes::NOTE_WIDTH;
use bank::terms::Terms;
use model::Row;

// Marks a row with a hole and the rows that it leads down to, up to one that is marked already.
fn mark_from(bank: &Terms<'_>, row: Row, notes: &mut [u16])
    requires { let x = store_of bank.now.words bank.now.counts bank.now.used in
        let z = room_in notes.old in
        HoledMarks bank.now.index z bank.now.used notes.old
        × KidsMarked x bank.now.index z bank.now.used 1 notes.old
        × (row.0 < bank.now.used)
        × (0 < row.0 → get_or bank.now.index (hole_of row.0) 0 ≡ 0 → ⊥)
        × (bank.now.used ≤ z) }
    ensures { let x = store_of bank.now.words bank.now.counts bank.now.used in
        let z = room_in notes.old in
        HoledMarks bank.now.index z bank.now.used notes.new
        × KidsMarked x bank.now.index z bank.now.used 1 notes.new
        × StayMarked z notes.old notes.new
        × (0 < row.0 → mark_note z notes.new row.0 ≡ 0 → ⊥) }
{
    let last = 3 * (notes.len() / NOTE_WIDTH);
    let mut at = row.0;
    while at != 0 {
        if notes[last + at as usize] != 0 {
            return;
        }
        notes[last + at as usize] = 1;
        let kid = bank.hole_kid(Row(at));
        at = kid.0;
    }
}

// Marks the members of C and all rows that they lead down to, where no row is marked yet.
fn mark_members(bank: &Terms<'_>, c: &[u16], notes: &mut [u16])
    requires { let x = store_of bank.now.words bank.now.counts bank.now.used in
        let z = room_in notes.old in
        HoledMarks bank.now.index z bank.now.used notes.old
        × KidsMarked x bank.now.index z bank.now.used 1 notes.old
        × Used bank.now.used c.now (length c.now)
        × ((j : ℕ) → j < length c.now → 0 < get_or c.now j 0
        → get_or bank.now.index (hole_of (get_or c.now j 0)) 0 ≡ 0 → ⊥)
        × (bank.now.used ≤ z) }
    ensures { let x = store_of bank.now.words bank.now.counts bank.now.used in
        let z = room_in notes.old in
        HoledMarks bank.now.index z bank.now.used notes.new
        × KidsMarked x bank.now.index z bank.now.used 1 notes.new
        × MembersMarked z c.now (length c.now) notes.new }
{
    for row in c {
        mark_from(bank, Row(*row), notes);
    }
}

// Puts row 0 at position 0.
fn put_hole(notes: &mut [u16])
    requires { 0 < room_in notes.old }
    ensures { notes.new ≡ hole_first (room_in notes.old) notes.old }
{
    let last = 3 * (notes.len() / NOTE_WIDTH);
    notes[0] = 0;
    notes[last] = 0;
}

// Puts a row behind the needed rows, at position n, with the position of its hole child.
fn put_needed(n: usize, row: Row, kid: Row, notes: &mut [u16])
    requires { let z = room_in notes.old in
        (n < z)
        × (n < most_rows)
        × (row.0 < z)
        × (kid.0 < z) }
    ensures { let z = room_in notes.old in
        notes.new ≡ needed_more z notes.old n row.0 kid.0 }
{
    let z = notes.len() / NOTE_WIDTH;
    let below = notes[3 * z + kid.0 as usize];
    notes[n] = row.0;
    notes[z + n] = below;
    notes[3 * z + row.0 as usize] = n as u16;
}

// Gives the marked rows beyond row 0 their positions, from 1 on: how many they are.
fn list_marked(bank: &Terms<'_>, notes: &mut [u16]) -> usize
    requires { let x = store_of bank.now.words bank.now.counts bank.now.used in
        let z = room_in notes.old in
        HoledMarks bank.now.index z bank.now.used notes.old
        × KidsMarked x bank.now.index z bank.now.used 1 notes.old
        × (row_note notes.old 0 ≡ 0)
        × (mark_note z notes.old 0 ≡ 0)
        × (bank.now.used ≤ z) }
    ensures { let x = store_of bank.now.words bank.now.counts bank.now.used in
        let z = room_in notes.old in
        NeededRows x bank.now.index bank.now.used z notes.new result
        × AllSeated z bank.now.used notes.old notes.new result }
{
    let last = 3 * (notes.len() / NOTE_WIDTH);
    let mut n = 0;
    for i in 1..bank.used() {
        if notes[last + i as usize] != 0 {
            let kid = bank.hole_kid(Row(i));
            n += 1;
            put_needed(n, Row(i), kid, notes);
        }
    }
    n
}

// The end of each run: behind a position up to there each row is the parent of the one before.
fn find_runs(n: usize, notes: &mut [u16])
    requires { (n < room_in notes.old) × (n < most_rows) }
    ensures { let z = room_in notes.old in
        Runs z notes.new 1 n
        × SameNotes 2 z notes.old notes.new }
{
    let z = notes.len() / NOTE_WIDTH;
    let mut end = n + 1;
    for p in (1..=n).rev() {
        notes[2 * z + p] = end as u16;
        if notes[z + p] != (p - 1) as u16 {
            end = p;
        }
    }
}

// The positions of the members of C, where the last column has the position of each row.
fn find_tops(c: &[u16], notes: &[u16], tops: &mut [u16])
    requires { let z = room_in notes.now in
        AllBelow z c.now
        × (length c.now ≤ length tops.old) }
    ensures { let z = room_in notes.now in
        TopsRead z c.now notes.now tops.new }
{
    let last = 3 * (notes.len() / NOTE_WIDTH);
    for (j, row) in c.iter().enumerate() {
        tops[j] = notes[last + *row as usize];
    }
}

// The needed rows of C with their runs, into the notes, and the positions of its members: how many needed rows there are.
pub fn needed_rows(bank: &Terms<'_>, c: &[u16], notes: &mut [u16], tops: &mut [u16]) -> usize
    requires { let x = store_of bank.now.words bank.now.counts bank.now.used in
        Contexts x c.now (length c.now)
        × (bank.now.used ≤ room_in notes.old)
        × (length c.now ≤ length tops.old) }
    ensures { let x = store_of bank.now.words bank.now.counts bank.now.used in
        let z = room_in notes.old in
        NeededRows x bank.now.index bank.now.used z notes.new result
        × Runs z notes.new 1 result
        × Tops c.now notes.new result tops.new }
{
    clear_run(0, usize::from(bank.used()), notes);
    mark_members(bank, c, notes);
    put_hole(notes);
    let n = list_marked(bank, notes);
    find_tops(c, notes, tops);
    find_runs(n, notes);
    n
}
