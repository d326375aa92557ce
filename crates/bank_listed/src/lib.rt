// bank: records listed by their symbols: what is wrong with one, the row that it has or gets, and its size (§3.4, §4.4, §8.5).
#![tactic(auto)]

ghost use Rattle.std.specs.Prelude.{◌≡◌, [], ◌≤◌, length};
ghost use Rattle.model.specs.Limits.{most_listed};
ghost use Rattle.model.specs.Refusals.{refused_by};
ghost use Rattle.model.specs.Terms.{record_fault, store_from, known_row};
ghost use Rattle.model.specs.Facts.{Parses};
ghost use Rattle.model.specs.Entry.{store_of};
ghost use Rattle.bank.specs.Bank.{Bank};
ghost use Rattle.bank_fill.specs.Adding.{Came};

use bank::index;
use bank_fill::add;
use bank_fill::add::Added;
use model::Row;
use model::limits::MOST_LISTED;
use model::refusal::Refusal;
use stack::Stack;

pub mod stack; // stack.rt: a stack of rows in a fixed array, seen as the list of them
pub mod sizes; // sizes.rt: the size of a row's unfolded record, counted up to 1,025 and never by unfolding

// The fault of a listed record: 11, 12, then 13 or 14 at the first symbol at fault, 15 (§5.1).
#[tactic(auto, unfolding(model::specs::Terms::symbols_fault))]
pub fn record_fault(counts: &[u8], symbols: &[u8]) -> Result<(), Refusal>
    ensures { refused_by result ≡ record_fault counts.now symbols.now }
{
    if symbols.is_empty() {
        return Err(Refusal::NoSymbols);
    }
    if MOST_LISTED < symbols.len() {
        return Err(Refusal::TooManySymbols);
    }
    let mut trees: usize = 0;
    for &symbol in symbols {
        let Some(&count) = counts.get(symbol as usize) else {
            return Err(Refusal::UnknownSymbol);
        };
        let count = count as usize;
        if trees < count {
            return Err(Refusal::ChildrenMissing);
        }
        trees = trees - count + 1;
    }
    if trees != 1 {
        return Err(Refusal::NotOneTree);
    }
    Ok(())
}

// A listed record stored: children first, left to right, each distinct row once.
pub fn store(
    words: &mut [u32],
    counts: &[u8],
    used: u16,
    index: &mut [u16],
    symbols: &[u8],
) -> Option<Added>
    requires { Bank words.old counts.now used index.old
        × Parses counts.now 0 symbols.now
        × (length symbols.now ≤ most_listed) }
    ensures { let x = store_of words.old counts.now used in
        let built = store_from x symbols.now [] in
        Came words.old counts.now used built result words.new index.new }
{
    let mut stack = Stack::new();
    let mut n = used;
    for symbol in symbols {
        let count = counts[*symbol as usize] as usize;
        let places = stack.top_places(count);
        let added = add::row_for(words, counts, n, index, u32::from(*symbol), places, 0)?;
        stack.put(count, added.row);
        n = added.used;
    }
    Some(Added {
        row: stack.root(),
        used: n,
    })
}

// The row of a listed record where it stands already; row 0 for none.
pub fn known_row(words: &[u32], counts: &[u8], used: u16, index: &[u16], symbols: &[u8]) -> Row
    requires { Bank words.now counts.now used index.now
        × Parses counts.now 0 symbols.now
        × (length symbols.now ≤ most_listed) }
    ensures { result.0 ≡ known_row (store_of words.now counts.now used) symbols.now }
{
    let mut stack = Stack::new();
    for symbol in symbols {
        let count = counts[*symbol as usize] as usize;
        let places = stack.top_places(count);
        let row = index::find(words, used, index, u32::from(*symbol), places);
        if row.0 == 0 {
            return Row(0);
        }
        stack.put(count, row);
    }
    stack.root()
}
