// What no line refuses is taken (§3.4, §3.5): its mark is stored, then the step; where it runs short, all is put back.
ghost use Rattle.std.specs.Prelude.{◌≡◌, true, ◌+◌, ◌*◌, ◌≤◌, length};
ghost use Rattle.model.specs.Limits.{most_contexts, row_width};
ghost use Rattle.model.specs.Calls.{fault_of};
ghost use Rattle.model.specs.Sound.{is_sound};
ghost use Rattle.model.specs.Entry.{size_fits, lent_fits, lists_fit, tables_of};
ghost use Rattle.bank.specs.Bank.{Bank};
ghost use Rattle.bank_fill.specs.Adding.{Came};
ghost use Rattle.run_lists.specs.Members.{counts_in};
ghost use Rattle.sound.specs.Working.{WorkingOn};
ghost use Rattle.call.specs.Calls.{CallAs};
ghost use Rattle.call.specs.Said.{call_of};
ghost use Rattle.call_take.specs.Taken.{mark_of, built_for, given_by};

use bank::rows;
use bank_fill::add::Added;
use bank_fill::undo;
use call::Said;
use model::refusal::Refusal;
use model::{Lists, Row};
use run_lists::change;

// The mark that was given.
fn mark_of(said: Said) -> u8
    ensures { result ≡ mark_of said }
{
    match said {
        Said::Answer(mark) => mark,
        Said::Offer(mark) => mark,
    }
}

// The row that the mark is for: the one asked about, or that of the record offered, which is stored.
fn row_for(
    words: &mut [u32],
    lists: Lists,
    symbols: &[u8],
    said: Said,
    index: &mut [u16],
) -> Option<Added>
    requires { (lists_fit lists ≡ true)
        × Bank words.old (counts_in lists) lists.used index.old
        × (fault_of (tables_of words.old lists) (call_of said symbols.now) ≡ 0) }
    ensures { let built = built_for (tables_of words.old lists) said symbols.now in
        Came words.old (counts_in lists) lists.used built result words.new index.new }
{
    match said {
        Said::Answer(_) => Some(Added {
            row: Row(lists.asked),
            used: lists.used,
        }),
        Said::Offer(_) => {
            bank_listed::store(words, lists.alphabet(), lists.used, index, symbols)
        }
    }
}

// The lists that the step is given: the question closed, or the record in hand.
fn given(lists: Lists, said: Said, row: Row, used: u16) -> Lists
    ensures { result ≡ given_by lists said row.0 used }
{
    match said {
        Said::Answer(_) => change::closed(lists),
        Said::Offer(_) => change::taken_up(lists, row, used),
    }
}

// The mark stored, and the step after it; where rows or the step run short, the words are put back.
pub fn take(
    words: &mut [u32],
    lists: Lists,
    symbols: &[u8],
    said: Said,
    saved: &mut [u32],
    index: &mut [u16],
    table: &mut [u8],
    notes: &mut [u16],
) -> Result<Lists, Refusal>
    requires { let x = tables_of words.old lists in
        (size_fits words.old ≡ true)
        × (lent_fits words.old lists ≡ true)
        × (is_sound x ≡ true)
        × (fault_of x (call_of said symbols.now) ≡ 0)
        × WorkingOn words.old lists index.old table.old notes.old
        × (length words.old ≤ row_width * lists.used + length saved.old)
        × (most_contexts * (lists.rules + 1) ≤ length table.old) }
    ensures { CallAs words.old lists (call_of said symbols.now) result words.new }
{
    let used = lists.used;
    undo::save(words, used, saved);
    let Some(Added { row, used: n }) = row_for(words, lists, symbols, said, index) else {
        undo::restore(words, used, saved);
        return Err(Refusal::RowsShort);
    };
    let old = rows::answer_of(words, row);
    rows::set_answer(words, row, u32::from(mark_of(said)) + 1);
    let begun = given(lists, said, row, n);
    let stepped = step::advance(words, begun, index, table, notes);
    if stepped.is_err() {
        rows::set_answer(words, row, old);
        undo::restore(words, used, saved);
    }
    stepped
}
