// The hash index over the used rows, in one slice that the caller lends: for each row two links and the place of its child with the hole,
// behind them the heads of two buckets a row. The rows of a bucket are a digital search tree, so no contents make a walk longer than a key has bits.
ghost use Rattle.std.specs.Prelude.{◌≡◌, ℕ, ◌*◌, ◌/◌, ◌<◌, ◌≤◌, length, get_or};
ghost use Rattle.model.specs.Store.{is_node};
ghost use Rattle.bank.specs.Rows.{Within, node_in};
ghost use Rattle.bank.specs.Index.{most_buckets, size_in, hole_of, bucket_for, key_for, Finding, find_in, Seat, Walk, entered};

use crate::rows;
use model::Row;
use model::limits::MOST_ROWS;

// Numbers of a row in the index: two links and the place, plus one, of the child with the hole.
const LINKS: usize = 3;

// Numbers of the index for each row that it has room for: those of the row, and the heads of two buckets.
pub const INDEX_WIDTH: usize = 5;

// A child place is a digit of a key.
const BASE: u64 = MOST_ROWS as u64;

// The bucket of a symbol and four places, among `size` of them.
#[tactic(auto, unfolding(crate::specs::Index::bucket_for))]
fn bucket(size: usize, symbol: u32, places: [u32; 4]) -> usize
    requires { (0 < size) × (size ≤ most_buckets) }
    ensures { (result ≡ bucket_for size symbol places) × (result < size) }
{
    let sum = times(symbol, 499994353)
        + times(places[0], 314606869)
        + times(places[1], 217645199)
        + times(places[2], 443834137)
        + times(places[3], 125640277);
    scaled(sum % 2147483648, size)
}

// The product of a number and a multiplier.
fn times(a: u32, by: u32) -> u64
    requires { by < 536870912 }
    ensures { (result ≡ a * by) × (result < 2305843009213693952) }
{
    u64::from(a) * u64::from(by)
}

// A number below 2^31 scaled to one below `size`. By `as`: no From leads from u64 to usize or back.
fn scaled(x: u64, size: usize) -> usize
    requires { (x < 2147483648) × (0 < size) × (size ≤ most_buckets) }
    ensures { (result ≡ x * size / 2147483648) × (result < size) }
{
    (x * size as u64 / 2147483648) as usize
}

// The key of a symbol and four places. Rows that fit T1 have different keys. Digit by digit, as key_for has it: in a fold over the places
// the bound of each sum would be an invariant.
#[tactic(auto, unfolding(crate::specs::Index::key_for))]
fn key(symbol: u32, places: [u32; 4]) -> u64
    ensures { result ≡ key_for symbol places }
{
    let above = places[3] as u64 % BASE + BASE * (symbol as u64 % 256);
    let upper = places[2] as u64 % BASE + BASE * above;
    let lower = places[1] as u64 % BASE + BASE * upper;
    places[0] as u64 % BASE + BASE * lower
}

// Whether a row has that symbol and those places. Place by place: `==` of the arrays reads all four of both, whichever differs first.
#[tactic(auto, using(crate::proofs::Laws::Finding::compared))]
pub fn row_is(words: &[u32], row: Row, symbol: u32, places: [u32; 4]) -> bool
    requires { Within words.now row.0 }
    ensures { result ≡ is_node symbol places (node_in words.now row.0) }
{
    rows::symbol_of(words, row) == symbol
        && rows::kid_of(words, row, 0) == places[0]
        && rows::kid_of(words, row, 1) == places[1]
        && rows::kid_of(words, row, 2) == places[2]
        && rows::kid_of(words, row, 3) == places[3]
}

// The slot of a symbol and four places: it holds the row that has them, or 0 where none has and one may be entered. The index is numbers
// in one slice, for there is no heap: in a slot, 0 is none.
// Most rows are alone in their bucket; the others are looked for below.
pub fn seek(words: &[u32], used: u16, index: &[u16], symbol: u32, places: [u32; 4]) -> usize
    requires { Finding words.now used index.now }
    ensures { Seat index.now symbol places result
        × (get_or index.now result 0 ≡ find_in words.now used symbol places) }
{
    let size = index.len() / INDEX_WIDTH;
    let head = LINKS * size + bucket(2 * size, symbol, places);
    let at = index[head];
    if at == 0 || row_is(words, Row(at), symbol, places) {
        return head;
    }
    below(words, used, index, symbol, places, Row(at))
}

// The same below the first row of the bucket, which is another. Two rows a turn: it is then too long to be copied to where it is called,
// and what calls it is short enough.
fn below(
    words: &[u32],
    used: u16,
    index: &[u16],
    symbol: u32,
    places: [u32; 4],
    first: Row,
) -> usize
    requires { Finding words.now used index.now
        × Walk words.now used index.now symbol places first.0 (key_for symbol places) }
    ensures { Seat index.now symbol places result
        × (get_or index.now result 0 ≡ find_in words.now used symbol places) }
{
    let mut at = first.0;
    let mut way = key(symbol, places);
    loop {
        let slot = LINKS * at as usize + (way % 2) as usize;
        let next = index[slot];
        if next == 0 {
            return slot;
        }
        if row_is(words, Row(next), symbol, places) {
            return slot;
        }
        let further = LINKS * next as usize + (way / 2 % 2) as usize;
        at = index[further];
        if at == 0 {
            return further;
        }
        if row_is(words, Row(at), symbol, places) {
            return further;
        }
        way = way / 2 / 2;
    }
}

// What a slot holds: a row, or row 0 for none, as `find_in` has it.
pub fn row_at(index: &[u16], slot: usize) -> Row
    requires { slot < length index.now }
    ensures { result.0 ≡ get_or index.now slot 0 }
{
    Row(index[slot])
}

// The row with that symbol and those places among the used ones; row 0 for none, as `find_in` has it: representatives and columns
// have an entry for it, which table_verdict and table_columns read. Not by `seek`: `below` has two callers, so that it is not copied into
// `seek`, and `seek` and this stay short enough to be copied to where they are called.
pub fn find(words: &[u32], used: u16, index: &[u16], symbol: u32, places: [u32; 4]) -> Row
    requires { Finding words.now used index.now }
    ensures { result.0 ≡ find_in words.now used symbol places }
{
    let size = index.len() / INDEX_WIDTH;
    let at = index[LINKS * size + bucket(2 * size, symbol, places)];
    if at == 0 || row_is(words, Row(at), symbol, places) {
        return Row(at);
    }
    row_at(index, below(words, used, index, symbol, places, Row(at)))
}

// Puts a row into its slot, with the mark of its hole and nothing below it. A mark is a number in that slice: the place plus one, or 0.
pub fn enter(index: &mut [u16], slot: usize, row: Row, hole: u8)
    requires { (slot < length index.old) × (row.0 < size_in index.old) }
    ensures { index.new ≡ entered index.old slot row.0 hole }
{
    let i = LINKS * row.0 as usize;
    index[i] = 0;
    index[i + 1] = 0;
    index[i + 2] = hole as u16;
    index[slot] = row.0;
}

// The mark of a row: the place, plus one, of the child that has the hole; 0 where none has, as `place_code` has it.
pub fn hole_of(index: &[u16], row: Row) -> u16
    requires { row.0 < size_in index.now }
    ensures { result ≡ get_or index.now (hole_of row.0) 0 }
{
    let i = LINKS * row.0 as usize;
    index[i + 2]
}

// The marks of the used rows, copied.
pub fn copy_marks(index: &[u16], used: u16, down: &mut [u16])
    requires { (used ≤ size_in index.now) × (used ≤ length down.old) }
    ensures { (i : ℕ) → i < used → get_or down.new i 0 ≡ get_or index.now (hole_of i) 0 }
{
    for i in 0..used {
        down[i as usize] = hole_of(index, Row(i));
    }
}
