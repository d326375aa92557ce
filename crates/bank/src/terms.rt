// The record table of a run with its index, as a call reads it (§2.1): good rows, the place of each row's hole, an index that finds each row.
// What the four parts are to one another is said once, here: a value of the type has it.
ghost use Rattle.std.specs.Prelude.{◌≡◌, ◌-◌, ◌<◌, length, get_or};
ghost use Rattle.model.specs.Store.{kids_at, next_row};
ghost use Rattle.model.specs.Entry.{store_of};
ghost use Rattle.bank.specs.Rows.{symbol_in, answer_in, kid_in, places_in};
ghost use Rattle.bank.specs.Index.{find_in, hole_of};
ghost use Rattle.bank.specs.Bank.{Bank, frame_at};
ghost use Rattle.bank.specs.Terms.{terms};

use crate::{index, rows};
use model::Row;
use std::marker::Model;

#[derive(Drop)]
pub struct Terms<'a> {
    words: &'a [u32],
    counts: &'a [u8],
    used: u16,
    index: &'a [u16],
}

impl<'a> Model for Terms<'a> {
    ghost use Rattle.bank.specs.Terms.{Parts};
    ghost use Rattle.bank.specs.Bank.{Bank};

    ghost Value = { Parts };

    ghost view = { λ a. record { words = a.words.now; counts = a.counts.now; used = a.used; index = a.index.now } };

    ghost invariant = { λ a. Bank a.words.now a.counts.now a.used a.index.now };
}

impl<'a> Terms<'a> {
    pub fn new(words: &'a [u32], counts: &'a [u8], used: u16, index: &'a [u16]) -> Terms<'a>
        requires { Bank words.now counts.now used index.now }
        ensures { result ≡ terms words.now counts.now used index.now }
    {
        Terms {
            words,
            counts,
            used,
            index,
        }
    }

    // How many rows are used; and what a value of the type is.
    pub fn used(&self) -> u16
        ensures value { result ≡ self.now.used }
        ensures ready { Bank self.now.words self.now.counts self.now.used self.now.index }
    {
        self.used
    }

    // How many children a symbol of the alphabet has.
    pub fn arity_of(&self, symbol: u8) -> u8
        requires { symbol < length self.now.counts }
        ensures { result ≡ get_or self.now.counts symbol 0 }
    {
        self.counts[usize::from(symbol)]
    }

    // The symbol of a used row.
    pub fn symbol_of(&self, row: Row) -> u32
        requires { row.0 < self.now.used }
        ensures { result ≡ symbol_in self.now.words row.0 }
    {
        rows::symbol_of(self.words, row)
    }

    // The answer of a used row.
    pub fn answer_of(&self, row: Row) -> u32
        requires { row.0 < self.now.used }
        ensures { result ≡ answer_in self.now.words row.0 }
    {
        rows::answer_of(self.words, row)
    }

    // How many children a used row past row 0 has.
    pub fn count_of(&self, row: Row) -> u8
        requires { (0 < row.0) × (row.0 < self.now.used) }
        ensures { let x = store_of self.now.words self.now.counts self.now.used in
            result ≡ length (kids_at x row.0) }
    {
        let symbol = rows::symbol_of(self.words, row);
        self.counts[symbol as usize]
    }

    // The number at a child place of a used row.
    pub fn kid_of(&self, row: Row, place: usize) -> u32
        requires { (row.0 < self.now.used) × (place < 4) }
        ensures { result ≡ kid_in self.now.words row.0 place }
    {
        rows::kid_of(self.words, row, place)
    }

    // The four child places of a used row.
    pub fn places_of(&self, row: Row) -> [u32; 4]
        requires { row.0 < self.now.used }
        ensures { result ≡ places_in self.now.words row.0 }
    {
        rows::places_of(self.words, row)
    }

    // The row with that symbol and those places among the used ones; row 0 for none. Copied to where it is called, as `index::find` is.
    #[inline(always)]
    pub fn find(&self, symbol: u32, places: [u32; 4]) -> Row
        ensures { result.0 ≡ find_in self.now.words self.now.used symbol places }
    {
        index::find(self.words, self.used, self.index, symbol, places)
    }

    // The row that is `row` but for the child at a place, which is `with`; row 0 where that is not stored.
    // Row 0 is none, as in the notes that `with` comes from and the result goes into (next_row, exchanged_by).
    pub fn exchanged(&self, row: Row, place: usize, with: Row) -> Row
        requires { let x = store_of self.now.words self.now.counts self.now.used in
            (0 < row.0)
            × (row.0 < self.now.used)
            × (place < length (kids_at x row.0)) }
        ensures { let x = store_of self.now.words self.now.counts self.now.used in
            (result.0 ≡ next_row x (frame_at x row.0 place) with.0)
            × (result.0 < self.now.used) }
    {
        if with.0 == 0 {
            return Row(0);
        }
        let symbol = rows::symbol_of(self.words, row);
        let mut places = rows::places_of(self.words, row);
        places[place] = u32::from(with.0);
        self.find(symbol, places)
    }

    // The index, for tests that read it and no row.
    pub fn index(&self) -> &'a [u16]
        ensures { result.now ≡ self.now.index }
    {
        self.index
    }

    // The place, plus one, of the child of a used row that has the hole; 0 where none has.
    pub fn hole_of(&self, row: Row) -> u16
        requires { row.0 < self.now.used }
        ensures { result ≡ get_or self.now.index (hole_of row.0) 0 }
    {
        index::hole_of(self.index, row)
    }

    // The place of the child of a used row that has the hole, where one has.
    fn hole_place(&self, row: Row) -> usize
        requires { (row.0 < self.now.used) × (get_or self.now.index (hole_of row.0) 0 ≡ 0 → ⊥) }
        ensures place { let x = store_of self.now.words self.now.counts self.now.used in
            (result ≡ get_or self.now.index (hole_of row.0) 0 - 1)
            × (result < length (kids_at x row.0))
            × (0 < row.0) }
        ensures ready { Bank self.now.words self.now.counts self.now.used self.now.index }
    {
        let mark = index::hole_of(self.index, row);
        mark as usize - 1
    }

    // The child of a used row that has the hole, where one has: an earlier row.
    pub fn hole_kid(&self, row: Row) -> Row
        requires { (row.0 < self.now.used) × (get_or self.now.index (hole_of row.0) 0 ≡ 0 → ⊥) }
        ensures kid { let x = store_of self.now.words self.now.counts self.now.used in
            let place = get_or self.now.index (hole_of row.0) 0 - 1 in
            (result.0 ≡ get_or (kids_at x row.0) place 0) × (result.0 < row.0) }
        ensures ready { Bank self.now.words self.now.counts self.now.used self.now.index }
    {
        let kid = rows::kid_of(self.words, row, self.hole_place(row));
        Row(kid as u16)
    }

    // The row that is `row` but for its hole child, which is `with`; row 0 where that is not stored.
    pub fn refilled(&self, row: Row, with: Row) -> Row
        requires { (row.0 < self.now.used) × (get_or self.now.index (hole_of row.0) 0 ≡ 0 → ⊥) }
        ensures row { let x = store_of self.now.words self.now.counts self.now.used in
            let place = get_or self.now.index (hole_of row.0) 0 - 1 in
            (result.0 ≡ next_row x (frame_at x row.0 place) with.0)
            × (result.0 < self.now.used) }
        ensures ready { Bank self.now.words self.now.counts self.now.used self.now.index }
    {
        let place = self.hole_place(row);
        self.exchanged(row, place, with)
    }

    // The words that the rows lie in.
    pub fn words(&self) -> &'a [u32]
        ensures { result.now ≡ self.now.words }
    {
        self.words
    }
}
