// bank: T1 in one pass over the used rows, which marks the holes and builds the index (§2.3).
// A twin is a lookup that hits.
#![tactic(auto)]

ghost use Rattle.std.specs.Prelude.{◌≡◌, true, false, [], ◌+◌, ◌*◌, ◌<◌, ◌≤◌, length, get_or};
ghost use Rattle.model.specs.Limits.{most_rows};
ghost use Rattle.model.specs.Table.{tables};
ghost use Rattle.model.specs.Sound.{is_t1, is_hole};
ghost use Rattle.model.specs.Entry.{store_of, answers_in, size_fits};
ghost use Rattle.bank.specs.Rows.{symbol_in, answer_in, places_in, node_in, Within};
ghost use Rattle.bank.specs.Index.{size_in, Roomy, Finding, find_in, Seat};
ghost use Rattle.bank.specs.Bank.{Bank};
ghost use Rattle.bank_t1.specs.Pass.{Cleared, hole_by, unused_zero, kids_in, row_says, Reached, Begun, rows_pass, Marked};

use bank::index::INDEX_WIDTH;
use bank::{index, rows};
use model::Row;
use model::limits::{HOLE_SYMBOL, ROW_WIDTH};
use run_lists::fit;

// Whether row 0 is the hole, unanswered.
fn is_hole(words: &[u32]) -> bool
    requires { Within words.now 0 }
    ensures { result ≡ is_hole (node_in words.now 0) (answer_in words.now 0) }
{
    index::row_is(words, Row(0), HOLE_SYMBOL, [0; 4]) && rows::answer_of(words, Row(0)) == 0
}

// Whether the child places of a row past the first `count` are 0.
fn unused_zero(words: &[u32], row: Row, count: u8) -> bool
    requires { Within words.now row.0 }
    ensures { result ≡ unused_zero words.now row.0 count }
{
    // Place by place from the count on: through an array all four would be read, of every row.
    for k in usize::from(count)..4 {
        if rows::kid_of(words, row, k) != 0 {
            return false;
        }
    }
    true
}

// Whether a row has a hole: it is row 0, or a child of it has one.
pub fn has_hole(index: &[u16], row: Row) -> bool
    requires { row.0 < size_in index.now }
    ensures { result ≡ hole_by index.now row.0 }
{
    row.0 == 0 || index::hole_of(index, row) != 0
}

// The children of a row: earlier rows, then 0, at most one hole. None where they do not fit; otherwise the mark of their hole, as the
// index stores it: its place plus one, or 0.
fn kids_of(words: &[u32], index: &[u16], row: Row, count: u8) -> Option<u8>
    requires { Within words.now row.0
        × (row.0 < most_rows)
        × (count ≤ 4)
        × (row.0 ≤ size_in index.now) }
    ensures { result ≡ kids_in words.now index.now row.0 count }
{
    if !unused_zero(words, row, count) {
        return None;
    }
    let mut hole = 0;
    for k in 0..count {
        let kid = rows::kid_of(words, row, k as usize);
        if row.0 as u32 <= kid {
            return None;
        }
        if has_hole(index, Row(kid as u16)) {
            if hole != 0 {
                return None;
            }
            hole = k + 1;
        }
    }
    Some(hole)
}

// A row by itself: known symbol, children that fit, an answer of its kind. The mark of its hole, or None.
fn row_fits(words: &[u32], counts: &[u8], used: u16, index: &[u16], row: Row) -> Option<u8>
    requires { Reached words.now counts.now used index.now row.0 × (row.0 < used) }
    ensures { result ≡ row_says words.now counts.now used row.0 }
{
    let count = *counts.get(rows::symbol_of(words, row) as usize)?;
    let answer = rows::answer_of(words, row);
    if 2 < answer {
        return None;
    }
    let hole = kids_of(words, index, row, count)?;
    if hole != 0 && answer != 0 {
        return None;
    }
    Some(hole)
}

// The slot of a row among the earlier ones: it holds the one that is equal to it, or 0 for none, as `find_in` has it.
fn seat_of(words: &[u32], index: &[u16], row: Row) -> usize
    requires { Within words.now row.0 × Finding words.now row.0 index.now }
    ensures { let symbol = symbol_in words.now row.0 in
        let places = places_in words.now row.0 in
        Seat index.now symbol places result
        × (get_or index.now result 0 ≡ find_in words.now row.0 symbol places) }
{
    let symbol = rows::symbol_of(words, row);
    let places = rows::places_of(words, row);
    index::seek(words, row.0, index, symbol, places)
}

// An index with no row in it: all bucket heads empty, and no mark at row 0.
fn clear(index: &mut [u16])
    requires { 0 < size_in index.old }
    ensures { Cleared index.new }
{
    let size = index.len() / INDEX_WIDTH;
    index[3 * size..5 * size].fill(0);
    index[2] = 0;
}

// The rows 1 to used - 1, each held against T1 and then entered into the index. Out of line: inside the soundness test, which calls it once,
// what it reads for every row would not stay in registers.
#[inline(never)]
fn rows_pass(words: &[u32], counts: &[u8], used: u16, index: &mut [u16]) -> bool
    requires { Begun words.now counts.now used × Roomy words.now index.old }
    ensures value { result ≡ rows_pass words.now counts.now used }
    ensures marked { result ≡ true → Marked words.now counts.now used index.new }
{
    clear(index);
    for i in 1..used {
        let Some(hole) = row_fits(words, counts, used, index, Row(i)) else {
            return false;
        };
        let slot = seat_of(words, index, Row(i));
        let twin = index::row_at(index, slot);
        if twin.0 != 0 {
            return false;
        }
        index::enter(index, slot, Row(i), hole);
    }
    true
}

// T1 of the lent words, whatever they hold; where it holds, the index and the holes are ready.
pub fn t1(words: &[u32], counts: &[u8], used: u16, index: &mut [u16]) -> bool
    requires { (size_fits words.now ≡ true) × Roomy words.now index.old }
    ensures result_value { let x = store_of words.now counts.now used in
        result ≡ is_t1 (tables x (answers_in used words.now) [] [] [] 0 0 false) }
    ensures bank { result ≡ true → Bank words.now counts.now used index.new }
{
    fit::alphabet_fits(counts)
        && used != 0
        && ROW_WIDTH * used as usize <= words.len()
        && is_hole(words)
        && rows_pass(words, counts, used, index)
}
