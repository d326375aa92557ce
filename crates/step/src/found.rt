// What the search in hand found (§4.1): a missing transition, an unknown answer, or answers that differ.
ghost use Rattle.std.specs.Prelude.{◌≡◌, ◌+◌, ◌*◌, ◌≤◌, ◌<◌, length, get_or};
ghost use Rattle.model.specs.Limits.{most_contexts};
ghost use Rattle.model.specs.Facts.{IsRecord, Fits};
ghost use Rattle.model.specs.Steps.{search, searched as searched_of, at_new_transition, at_unknown};
ghost use Rattle.model.specs.Entry.{tables_of};
ghost use Rattle.bank.specs.Bank.{Bank, path_of};
ghost use Rattle.bank.specs.Notes.{NotesFor, room_in, reps_in, down_in, spots_in, exchanged_in};
ghost use Rattle.run_lists.specs.Members.{counts_in};
ghost use Rattle.run_lists.specs.Run.{Run};
ghost use Rattle.step_search.specs.Spots.{Descended, search_by};
ghost use Rattle.step_settle.specs.Stepped.{EndedAs};
ghost use Rattle.step.specs.InHand.{InHand};

use bank::notes;
use bank_fill::add;
use model::limits::MOST_RULES;
use model::refusal::Refusal;
use model::{Lists, Row};
use run_lists::change;
use step_search::Found;
use step_settle::{opened, putdown};

// The row at the spot is no transition: it becomes one, and the record is put down.
fn new_transition(
    words: &mut [u32],
    lists: Lists,
    index: &mut [u16],
    table: &mut [u8],
    notes: &mut [u16],
    hand: Row,
    spot: Row,
) -> Result<Lists, Refusal>
    requires { let x = (tables_of words.old lists).store in
        Bank words.old (counts_in lists) lists.used index.old
        × Run words.old lists
        × NotesFor words.old notes.old
        × (most_contexts * (lists.rules + 1) ≤ length table.old)
        × (lists.contexts < most_contexts)
        × IsRecord x hand.0
        × IsRecord x spot.0
        × Fits x (path_of (down_in notes.old) x hand.0) }
    ensures { let x = tables_of words.old lists in
        let around = path_of (down_in notes.old) x.store hand.0 in
        let found = at_new_transition hand.0 (record { row = spot.0; around = around }) in
        EndedAs words.old lists (searched_of x found) result words.new }
{
    if lists.rules as usize == MOST_RULES {
        return Err(Refusal::RulesShort);
    }
    let left = change::with_rule(lists, spot);
    putdown::put_down(words, left, index, table, notes, hand)
}

// The answer with the representative in the spot's place is unknown: it is asked.
fn unknown(
    words: &mut [u32],
    lists: Lists,
    index: &mut [u16],
    down: &[u16],
    hand: Row,
    rep: Row,
) -> Result<Lists, Refusal>
    requires { let x = (tables_of words.old lists).store in
        Bank words.old (counts_in lists) lists.used index.old
        × Run words.old lists
        × (lists.used ≤ length down.now)
        × IsRecord x hand.0
        × (rep.0 < lists.used)
        × Fits x (path_of down.now x hand.0) }
    ensures { let x = tables_of words.old lists in
        let around = path_of down.now x.store hand.0 in
        let found = at_unknown hand.0 (record { row = 0; around = around }) rep.0 in
        EndedAs words.old lists (searched_of x found) result words.new }
{
    let added = add::fill(words, lists.alphabet(), lists.used, index, down, hand, rep);
    opened(lists, hand, added)
}

// The row at a row's spot.
fn spot_of(notes: &[u16], row: Row) -> Row
    requires { row.0 < room_in notes.now }
    ensures { result.0 ≡ get_or (spots_in notes.now) row.0 0 }
{
    Row(notes::column(notes, 2)[row.0 as usize])
}

// The representative of a transition.
fn rep_of(notes: &[u16], row: Row) -> Row
    requires { row.0 < room_in notes.now }
    ensures { result.0 ≡ get_or (reps_in notes.now) row.0 0 }
{
    Row(notes::column(notes, 0)[row.0 as usize])
}

// Where the search ended, the record is asked about or put down.
pub fn searched(
    words: &mut [u32],
    lists: Lists,
    index: &mut [u16],
    table: &mut [u8],
    notes: &mut [u16],
    found: Found,
) -> Result<Lists, Refusal>
    requires { let x = tables_of words.old lists in
        let reps = reps_in notes.old in
        Bank words.old (counts_in lists) lists.used index.old
        × Run words.old lists
        × NotesFor words.old notes.old
        × (most_contexts * (lists.rules + 1) ≤ length table.old)
        × InHand words.old lists reps
        × Descended x.s reps x.store (down_in notes.old) (spots_in notes.old) (exchanged_in notes.old) lists.used
        × (search_by x.s reps x.store found ≡ search x.store x.answers x.s x.t x.c lists.hand) }
    ensures { let x = tables_of words.old lists in
        let reps = reps_in notes.old in
        EndedAs words.old lists (searched_of x (search_by x.s reps x.store found)) result words.new }
{
    match found {
        Found::NewTransition(h) => {
            let spot = spot_of(notes, h);
            new_transition(words, lists, index, table, notes, h, spot)
        }
        Found::Unknown(h) => {
            let rep = rep_of(notes, spot_of(notes, h));
            let down = notes::column(notes, 1);
            unknown(words, lists, index, down, h, rep)
        }
        Found::Difference(h) => { putdown::put_down(words, lists, index, table, notes, h) }
    }
}
