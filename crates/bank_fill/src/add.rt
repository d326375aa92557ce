// Rows added where there are none: for a context filled, and for a listed record (§4.4). Rows running out is an answer.
ghost use Rattle.std.specs.Prelude.{◌≡◌, List, ℕ, ◌<◌, ◌≤◌, length, set};
ghost use Rattle.model.specs.Store.{row_for, fill as fill_of};
ghost use Rattle.model.specs.Facts.{Fits};
ghost use Rattle.model.specs.Entry.{store_of};
ghost use Rattle.bank.specs.Rows.{symbol_in, places_in};
ghost use Rattle.bank.specs.Bank.{Bank, Lent, path_of};
ghost use Rattle.bank_fill.specs.Adding.{Came, PlacesAsked, kids_of, hole_above, Put, Under, FramesAsked};

use bank::{index, rows};
use model::Row;
use model::limits::ROW_WIDTH;

// A row found or added, and the rows used afterwards; there is none where the rows run out.
#[derive(Clone, Copy)]
pub struct Added {
    pub row: Row,
    pub used: u16,
}

// The row of a symbol and children, found or added; `hole` is the place, plus one, of its child with a hole.
pub fn row_for(
    words: &mut [u32],
    counts: &[u8],
    used: u16,
    index: &mut [u16],
    symbol: u32,
    places: [u32; 4],
    hole: u8,
) -> Option<Added>
    requires { Bank words.old counts.now used index.old
        × PlacesAsked (store_of words.old counts.now used) symbol places hole }
    ensures { let x = store_of words.old counts.now used in
        let made = row_for x symbol (kids_of counts.now symbol places) in
        Came words.old counts.now used made result words.new index.new }
{
    put(words, used, index, symbol, places, hole)
}

// The row of a symbol and four places: found, or written behind the used ones and entered where the search ended; or there is no room for it.
fn put(
    words: &mut [u32],
    used: u16,
    index: &mut [u16],
    symbol: u32,
    places: [u32; 4],
    hole: u8,
) -> Option<Added>
    requires { Lent words.old used index.old }
    ensures { Put words.old used index.old symbol places hole result words.new index.new }
{
    let slot = index::seek(words, used, index, symbol, places);
    let found = index::row_at(index, slot);
    if found.0 != 0 {
        return Some(Added { row: found, used });
    }
    if words.len() < ROW_WIDTH * used as usize + ROW_WIDTH {
        return None;
    }
    rows::write_row(words, Row(used), symbol, places);
    index::enter(index, slot, Row(used), hole);
    Some(Added {
        row: Row(used),
        used: used + 1,
    })
}

// A context, or the frames around a spot, filled: down along `down` from a row, and the rows found or added on the way back.
pub fn fill(
    words: &mut [u32],
    counts: &[u8],
    used: u16,
    index: &mut [u16],
    down: &[u16],
    row: Row,
    with: Row,
) -> Option<Added>
    requires { let x = store_of words.old counts.now used in
        Bank words.old counts.now used index.old
        × (used ≤ length down.now)
        × (row.0 < used)
        × (with.0 < used)
        × Fits x (path_of down.now x row.0) }
    ensures { let x = store_of words.old counts.now used in
        let made = fill_of x (path_of down.now x row.0) with.0 in
        Came words.old counts.now used made result words.new index.new }
{
    let i = row.0 as usize;
    if down[i] == 0 {
        return Some(Added { row: with, used });
    }
    fill_frames(words, down, row, with, used, index)
}

// The frames from a row whose entry names a place: the innermost filled with `with`, each other one with the row that those below it gave.
// No counts are passed, and two calls of `above` keep that out of line: a frame stays small.
fn fill_frames(
    words: &mut [u32],
    down: &[u16],
    row: Row,
    with: Row,
    used: u16,
    index: &mut [u16],
) -> Option<Added>
    requires { Under (λ (counts : List ℕ). FramesAsked words.old counts used index.old down.now row.0 with.0) }
    ensures { (counts : List ℕ) →
        FramesAsked words.old counts used index.old down.now row.0 with.0 →
        let x = store_of words.old counts used in
        let made = fill_of x (path_of down.now x row.0) with.0 in
        Came words.old counts used made result words.new index.new }
{
    let i = row.0 as usize;
    let k = down[i] as usize - 1;
    let kid = rows::kid_of(words, row, k);
    if down[kid as usize] == 0 {
        return above(words, used, index, row, k, with); // the innermost
    }
    let below = fill_frames(words, down, Row(kid as u16), with, used, index)?;
    above(words, below.used, index, row, k, below.row) // on the way back
}

// The row that is `row` but for the child at a place, found or added.
fn above(
    words: &mut [u32],
    used: u16,
    index: &mut [u16],
    row: Row,
    place: usize,
    kid: Row,
) -> Option<Added>
    requires { Lent words.old used index.old × (row.0 < used) × (place < 4) × (kid.0 < used) }
    ensures { let symbol = symbol_in words.old row.0 in
        let places = set (places_in words.old row.0) place kid.0 in
        let hole = hole_above index.old kid.0 place in
        Put words.old used index.old symbol places hole result words.new index.new }
{
    let symbol = rows::symbol_of(words, row);
    let mut places = rows::places_of(words, row);
    places[place] = u32::from(kid.0);
    let hole = if bank_t1::has_hole(index, kid) {
        place as u8 + 1
    } else {
        0
    };
    put(words, used, index, symbol, places, hole)
}
