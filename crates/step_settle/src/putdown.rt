// The record in hand is put down (§4.1): the context around its spot is added, to C too if it is absent there.
ghost use Rattle.std.specs.Prelude.{◌≡◌, ◌*◌, ◌≤◌, ◌<◌, length};
ghost use Rattle.model.specs.Limits.{most_contexts};
ghost use Rattle.model.specs.Facts.{IsRecord, Fits};
ghost use Rattle.model.specs.Steps.{put_down};
ghost use Rattle.model.specs.Entry.{tables_of};
ghost use Rattle.bank.specs.Bank.{Bank, path_of};
ghost use Rattle.bank.specs.Notes.{NotesFor, down_in};
ghost use Rattle.run_lists.specs.Members.{counts_in};
ghost use Rattle.run_lists.specs.Run.{Run};
ghost use Rattle.step_settle.specs.Stepped.{EndedAs};

use crate::settle;
use bank::notes;
use bank_fill::add;
use model::refusal::Refusal;
use model::{Lists, Row};
use run_lists::change;

// Put down along the way down from the record to its spot, then on as with nothing in hand; the table of answers is forgotten.
pub fn put_down(
    words: &mut [u32],
    lists: Lists,
    index: &mut [u16],
    table: &mut [u8],
    notes: &mut [u16],
    hand: Row,
) -> Result<Lists, Refusal>
    requires { let x = (tables_of words.old lists).store in
        Bank words.old (counts_in lists) lists.used index.old
        × Run words.old lists
        × NotesFor words.old notes.old
        × (most_contexts * lists.rules ≤ length table.old)
        × (lists.contexts < most_contexts)
        × IsRecord x hand.0
        × Fits x (path_of (down_in notes.old) x hand.0) }
    ensures { let x = tables_of words.old lists in
        let around = path_of (down_in notes.old) x.store hand.0 in
        EndedAs words.old lists (put_down x around) result words.new }
{
    let down = notes::column(notes, 1);
    let context = add::fill(
        words,
        lists.alphabet(),
        lists.used,
        index,
        down,
        hand,
        Row(0),
    )
    .ok_or(Refusal::RowsShort)?;
    let left = change::with_context(lists, context.row, context.used);
    table::forget(table, left.rules as usize);
    settle::settled(words, left, index, table, notes)
}
