// A call in as much room as its tables want: arrays of one of four sizes, and few rows past the used ones, which are saved.
// Where these rows are too few the call is refused with 34 and leaves all as it was; then it is made with more, and at last with all.
ghost use Rattle.std.specs.Prelude.{◌≡◌, true, ◌<◌, ◌+◌, ◌*◌, ◌/◌, ◌≤◌, eqb, length};
ghost use Rattle.call.specs.Ladder.{small_rows, small_rules};
ghost use Rattle.model.specs.Limits.{most_words, row_width};
ghost use Rattle.model.specs.Entry.{size_fits, lent_fits};
ghost use Rattle.model.specs.Refusals.{refused_by};
ghost use Rattle.call.specs.Calls.{CallAs};
ghost use Rattle.call.specs.Said.{call_of};
ghost use Rattle.call_room.specs.Tried.{TriedAs, spare_rows, more_spare_rows};

use call::{Said, ladder};
use model::Lists;
use model::limits::ROW_WIDTH;
use model::refusal::Refusal;

// Rows past the used ones that a call is first tried with, and then.
const SPARE_ROWS: usize = 64;

const MORE_SPARE_ROWS: usize = 256;

// Where more rows are used, contexts may be deep and one call may add thousands: all rows are lent at once.
const DEEP: u16 = 4096;

// A longer record is not tried with few rows.
const SHORT: usize = 64;

// Whether a call is tried with few rows: a short record, on a small table.
fn is_short(used: u16, rules: u16, length: usize) -> bool
    ensures { result ≡ true → (used + spare_rows ≤ small_rows) × (rules < small_rules) }
{
    length <= SHORT && ladder::is_small(used as usize + SPARE_ROWS, rules)
}

// Whether a call ran out of rows. A function of its own: of `matches!` in place a proof learns nothing about the other reasons.
fn lacks_rows(done: &Result<Lists, Refusal>) -> bool
    ensures { result ≡ eqb (refused_by done.now) 34 }
{
    matches!(done, Err(Refusal::RowsShort))
}

// Tried with as many rows past the used ones as can be saved; nothing, and the words as they were, only where they are not enough and
// more are lent.
fn first(
    words: &mut [u32],
    lists: Lists,
    symbols: &[u8],
    said: Said,
    saved: &mut [u32],
) -> Option<Result<Lists, Refusal>>
    requires { (size_fits words.old ≡ true)
        × (lent_fits words.old lists ≡ true)
        × (row_width ≤ length saved.old)
        × (length saved.old ≤ most_words) }
    ensures { let tried = row_width * (lists.used + length saved.old / row_width) in
        TriedAs words.old tried lists (call_of said symbols.now) result words.new }
{
    let spare = saved.len() / ROW_WIDTH;
    let n = words.len().min(ROW_WIDTH * (lists.used as usize + spare));
    let done = call_sizes::in_smallest(&mut words[..n], lists, symbols, said, saved);
    if lacks_rows(&done) && n < words.len() {
        return None;
    }
    Some(done)
}

// Tried with 64 rows past the used ones, in an array that a small frame has room for.
fn first_few(
    words: &mut [u32],
    lists: Lists,
    symbols: &[u8],
    said: Said,
) -> Option<Result<Lists, Refusal>>
    requires { (size_fits words.old ≡ true) × (lent_fits words.old lists ≡ true) }
    ensures { let tried = row_width * (lists.used + spare_rows) in
        TriedAs words.old tried lists (call_of said symbols.now) result words.new }
{
    let mut saved = [0u32; ROW_WIDTH * SPARE_ROWS];
    first(words, lists, symbols, said, &mut saved)
}

// Tried with 256.
fn first_more(
    words: &mut [u32],
    lists: Lists,
    symbols: &[u8],
    said: Said,
) -> Option<Result<Lists, Refusal>>
    requires { (size_fits words.old ≡ true) × (lent_fits words.old lists ≡ true) }
    ensures { let tried = row_width * (lists.used + more_spare_rows) in
        TriedAs words.old tried lists (call_of said symbols.now) result words.new }
{
    let mut saved = [0u32; ROW_WIDTH * MORE_SPARE_ROWS];
    first(words, lists, symbols, said, &mut saved)
}

// Tried with more rows, and where they are not enough and more are lent, made with all.
#[inline(never)]
fn tried_more(words: &mut [u32], lists: Lists, symbols: &[u8], said: Said) -> Result<Lists, Refusal>
    requires { (size_fits words.old ≡ true) × (lent_fits words.old lists ≡ true) }
    ensures { CallAs words.old lists (call_of said symbols.now) result words.new }
{
    if lists.used <= DEEP {
        if let Some(done) = first_more(words, lists, symbols, said) {
            return done;
        }
    }
    call_sizes::with_all(words, lists, symbols, said)
}

// 18, 30, then the call's own lines and its step: tried with few rows where the call is small, and where they are not enough and
// more are lent, with more.
pub fn made(words: &mut [u32], lists: Lists, symbols: &[u8], said: Said) -> Result<Lists, Refusal>
    ensures { CallAs words.old lists (call_of said symbols.now) result words.new }
{
    call::lent_fault(words, lists)?;
    if is_short(lists.used, lists.rules, symbols.len()) {
        if let Some(done) = first_few(words, lists, symbols, said) {
            return done;
        }
    }
    tried_more(words, lists, symbols, said)
}
