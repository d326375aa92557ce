// call: start, by value; what refuses every call, and what calls return and tell (§3.2, §3.3, §5.3).
// Start leaves row 0 the hole and the lists of a run that has learnt nothing; 18 and 17 refuse it.
#![tactic(auto)]

ghost use Rattle.std.specs.Prelude.{◌≡◌, true, List, ℕ};
ghost use Rattle.model.specs.Calls.{look as look_of};
ghost use Rattle.model.specs.Refusals.{refused_by};
ghost use Rattle.model.specs.Entry.{lists_fit, lent_fault, tables_of, seen_of};
ghost use Rattle.model.specs.declared.Lists.{Lists};
ghost use Rattle.call.specs.Calls.{DoneFit, StartAs, done_seen, done_lists};

use bank::rows;
use model::limits::HOLE_SYMBOL;
use model::refusal::Refusal;
use model::{Lists, Row, Seen};
use run_lists::{change, fit};

pub mod ladder; // ladder.rt: how long the arrays are that a call works in

// What the archive said: an answer to the open question, or its mark for the record offered. It is data: a host may give any number as mark (16).
#[derive(Clone, Copy)]
pub enum Said {
    Answer(u8),
    Offer(u8),
}

// What refuses any call on a run before its tables are looked at: 18, then 30 for lists that do not fit.
pub fn lent_fault(words: &[u32], lists: Lists) -> Result<(), Refusal>
    ensures { refused_by result ≡ lent_fault words.now lists }
{
    if !rows::size_fits(words) {
        return Err(Refusal::Size);
    }
    if !fit::lists_fit(lists) {
        return Err(Refusal::Unsound);
    }
    Ok(())
}

// What looking tells of lists that are within their arrays, whatever the words are.
pub fn told(lists: Lists) -> Seen
    requires { lists_fit lists ≡ true }
    ensures { (words : List ℕ) → result ≡ seen_of (look_of (tables_of words lists)) }
{
    let phase = if lists.accepted == 1 {
        2
    } else if lists.asked != 0 {
        1
    } else {
        0
    };
    Seen {
        number: 0,
        phase,
        row: lists.asked,
        states: lists.states,
        rules: lists.rules,
        contexts: lists.contexts,
    }
}

// What is told of a call, and the lists that it left put in the place of the caller's; where it is refused these stay.
pub fn finish(lists: &mut Lists, done: Result<Lists, Refusal>) -> Seen
    requires { DoneFit done }
    ensures seen { result ≡ done_seen done }
    ensures lists { lists.new ≡ done_lists lists.old done }
{
    match done {
        Ok(left) => {
            *lists = left;
            told(left)
        }
        Err(refusal) => Seen::from(refusal),
    }
}

// Start: 18, 17; the other rows stay.
pub fn start(words: &mut [u32], counts: &[u8]) -> Result<Lists, Refusal>
    ensures { (lists : Lists) → StartAs words.old counts.now lists result words.new }
{
    if !rows::size_fits(words) {
        return Err(Refusal::Size);
    }
    if !fit::alphabet_fits(counts) {
        return Err(Refusal::Alphabet);
    }
    rows::write_row(words, Row(0), HOLE_SYMBOL, [0, 0, 0, 0]);
    Ok(change::fresh(counts))
}
