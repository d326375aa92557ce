// The ways in which a run's lists change (§3, §4), by value. Zeros and the lists of a start are model's `zero_lists` and `started`;
// each other way has its definition in specs/Changes.antt.
// Where a call does not name a field, it stays. Row 0 is none in hand and none asked, and accepted is 0 or 1: C reads and writes `Lists`.
ghost use Rattle.std.specs.Prelude.{◌≡◌, ◌≤◌, ◌<◌, length};
ghost use Rattle.model.specs.Limits.{most_symbols, most_rules, most_contexts};
ghost use Rattle.model.specs.Base.{over};
ghost use Rattle.model.specs.Calls.{started};
ghost use Rattle.model.specs.Entry.{zero_lists, lists_of};
ghost use Rattle.run_lists.specs.Changes.{asking as asking_of, closed as closed_of, taken_up, proposing as proposing_of};
ghost use Rattle.run_lists.specs.Changes.{accepting as accepting_of, with_rule, with_context};

use crate::is_among;
use model::limits::{MOST_CONTEXTS, MOST_RULES, MOST_STATES, MOST_SYMBOLS};
use model::{Lists, Row};

// The alphabet at the front of an array, zeros behind it.
fn spread(counts: &[u8]) -> [u8; MOST_SYMBOLS]
    requires { length counts.now ≤ most_symbols }
    ensures { result ≡ over counts.now zero_lists.counts }
{
    let mut wide = [0; MOST_SYMBOLS];
    wide[..counts.len()].copy_from_slice(counts);
    wide
}

// Lists in which nothing is.
pub fn zeros() -> Lists
    ensures { result ≡ zero_lists }
{
    Lists {
        letters: 0,
        counts: [0; MOST_SYMBOLS],
        accepted: 0,
        used: 0,
        states: 0,
        s: [0; MOST_STATES],
        rules: 0,
        t: [0; MOST_RULES],
        contexts: 0,
        c: [0; MOST_CONTEXTS],
        hand: 0,
        asked: 0,
    }
}

// A run that has learnt nothing: row 0 is used, C is the hole.
pub fn fresh(counts: &[u8]) -> Lists
    requires { length counts.now ≤ most_symbols }
    ensures { result ≡ lists_of zero_lists (started 1 counts.now) }
{
    Lists {
        letters: counts.len() as u8,
        counts: spread(counts),
        used: 1,
        contexts: 1,
        ..zeros()
    }
}

// A question is open.
pub fn asking(lists: Lists, hand: Row, row: Row, used: u16) -> Lists
    ensures { result ≡ asking_of lists hand.0 row.0 used }
{
    Lists {
        accepted: 0,
        used,
        hand: hand.0,
        asked: row.0,
        ..lists
    }
}

// The question is closed.
pub fn closed(lists: Lists) -> Lists
    ensures { result ≡ closed_of lists }
{
    asking(lists, Row(lists.hand), Row(0), lists.used)
}

// A record is in hand.
pub fn taken_up(lists: Lists, row: Row, used: u16) -> Lists
    ensures { result ≡ taken_up lists row.0 used }
{
    asking(lists, row, Row(0), used)
}

// An automaton is proposed.
pub fn proposing(lists: Lists, s: [u16; MOST_STATES], states: u16) -> Lists
    ensures { result ≡ proposing_of lists s states }
{
    Lists {
        accepted: 0,
        states,
        s,
        hand: 0,
        asked: 0,
        ..lists
    }
}

// It is accepted.
pub fn accepting(lists: Lists) -> Lists
    ensures { result ≡ accepting_of lists }
{
    Lists {
        accepted: 1,
        ..lists
    }
}

// A transition is appended.
pub fn with_rule(lists: Lists, row: Row) -> Lists
    requires { lists.rules < most_rules }
    ensures { result ≡ with_rule lists row.0 }
{
    let mut left = lists;
    left.t[lists.rules as usize] = row.0;
    left.rules += 1;
    left
}

// The record in hand is put down with a context, which is appended if it is absent.
pub fn with_context(lists: Lists, context: Row, used: u16) -> Lists
    requires { lists.contexts < most_contexts }
    ensures { result ≡ with_context lists context.0 used }
{
    let mut left = asking(lists, Row(0), Row(0), used);
    let n = lists.contexts as usize;
    if !is_among(&lists.c[..n], context) {
        left.c[n] = context.0;
        left.contexts += 1;
    }
    left
}
