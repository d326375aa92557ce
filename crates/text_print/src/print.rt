// The text of a row's record (§8.4). The record printer and the child-list printer call each other; the row number falls.
ghost use Rattle.std.specs.Prelude.{◌≡◌, map, ◌+◌, ◌≤◌, ◌<◌, length, get_or, drop};
ghost use Rattle.model.specs.Store.{kids_at};
ghost use Rattle.model.specs.Entry.{store_of};
ghost use Rattle.bank.specs.Bank.{Stored};
ghost use Rattle.list.specs.Put.{put_at};
ghost use Rattle.text.specs.Written.{letter_of, others, row_text};

use bank::rows;
use model::Row;

// The letter of a symbol.
fn letter_of(letters: &[u8], symbol: u32) -> u8
    ensures { result ≡ letter_of letters.now symbol }
{
    letters.get(symbol as usize).copied().unwrap_or(b'?')
}

// How many children a symbol has.
fn count_of(counts: &[u8], symbol: u32) -> u8
    ensures { result ≡ get_or counts.now symbol 0 }
{
    counts.get(symbol as usize).copied().unwrap_or(0)
}

// A record: its letter, then its children in brackets.
// By room and place, no `Line`: the clauses that PROMISES.md names speak of both, so a `Line` would only be made and taken apart here.
#[cycle(print_list_print_record)]
pub fn print_record(
    words: &[u32],
    counts: &[u8],
    used: u16,
    letters: &[u8],
    row: Row,
    out: &mut [u8],
    at: usize,
) -> usize
    requires { Stored words.now counts.now used
        × (row.0 < used)
        × (at + length (row_text letters.now (store_of words.now counts.now used) row.0) ≤ length out.old) }
    ensures value { result ≡ at + length (row_text letters.now (store_of words.now counts.now used) row.0) }
    ensures out { let x = store_of words.now counts.now used in
        out.new ≡ put_at at (row_text letters.now x row.0) out.old }
{
    let symbol = rows::symbol_of(words, row);
    out[at] = letter_of(letters, symbol);
    if count_of(counts, symbol) == 0 {
        return at + 1;
    }
    out[at + 1] = b'[';
    let first = rows::kid_of(words, row, 0);
    let next = print_record(words, counts, used, letters, Row(first as u16), out, at + 2);
    print_list(words, counts, used, letters, row, 1, out, next)
}

// The children of a row from a place on, each after a comma, and the closing bracket.
#[cycle(print_list_print_record)]
fn print_list(
    words: &[u32],
    counts: &[u8],
    used: u16,
    letters: &[u8],
    row: Row,
    place: u8,
    out: &mut [u8],
    at: usize,
) -> usize
    requires { let x = store_of words.now counts.now used in
        Stored words.now counts.now used
        × (row.0 < used)
        × (place ≤ length (kids_at x row.0))
        × (at + length (others (drop place (map (row_text letters.now x) (kids_at x row.0)))) ≤ length out.old) }
    ensures value { let x = store_of words.now counts.now used in
        result ≡ at + length (others (drop place (map (row_text letters.now x) (kids_at x row.0)))) }
    ensures out { let x = store_of words.now counts.now used in
        out.new ≡ put_at at (others (drop place (map (row_text letters.now x) (kids_at x row.0)))) out.old }
{
    let symbol = rows::symbol_of(words, row);
    if place == count_of(counts, symbol) {
        out[at] = b']';
        return at + 1;
    }
    out[at] = b',';
    let kid = rows::kid_of(words, row, place as usize);
    let next = print_record(words, counts, used, letters, Row(kid as u16), out, at + 1);
    print_list(words, counts, used, letters, row, place + 1, out, next)
}
