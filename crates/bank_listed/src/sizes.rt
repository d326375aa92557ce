// The size of a row's unfolded record, counted up to 1,025 and never by unfolding (§8.5).
// Rows are shared, so one row can be a huge record.
ghost use Rattle.std.specs.Prelude.{◌≡◌, ◌≤◌, ◌<◌};
ghost use Rattle.model.specs.Limits.{most_rows};
ghost use Rattle.model.specs.Entry.{store_of};
ghost use Rattle.model.specs.Terms.{size_of, cut};
ghost use Rattle.bank.specs.Bank.{Stored};
ghost use Rattle.bank_listed.specs.Sizes.{Sizing};

use bank::rows;
use model::Row;
use model::limits::{MOST_LISTED, MOST_ROWS};
use std::cmp::min;

// As far as sizes are counted: one more than a record that is written out may have.
const MOST: u16 = MOST_LISTED as u16 + 1;

// The cut size of a row past row 0, from those of the rows before it.
fn row_size(words: &[u32], counts: &[u8], used: u16, sizes: &[u16; MOST_ROWS], row: Row) -> u16
    requires { Sizing words.now counts.now used sizes.now row.0
        × (0 < row.0)
        × (row.0 < used) }
    ensures { result ≡ cut (size_of (store_of words.now counts.now used) row.0) }
{
    let symbol = rows::symbol_of(words, row);
    let count = counts[symbol as usize] as usize;
    let mut size: u16 = 1;
    for k in 0..count {
        size += sizes[rows::kid_of(words, row, k) as usize];
    }
    min(size, MOST)
}

// The cut size of a used row, by one pass over the rows up to it.
pub fn size_of(words: &[u32], counts: &[u8], used: u16, row: Row) -> u16
    requires { Stored words.now counts.now used × (used ≤ most_rows) × (row.0 < used) }
    ensures { result ≡ cut (size_of (store_of words.now counts.now used) row.0) }
{
    let mut sizes = [0u16; MOST_ROWS];
    sizes[0] = 1;
    for i in 1..row.0 + 1 {
        sizes[i as usize] = row_size(words, counts, used, &sizes, Row(i));
    }
    sizes[row.0 as usize]
}
