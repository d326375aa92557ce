// The ladder: how long the arrays are that a call works in, by the rows and the transitions that they have room for.
// An array is zeroed when it is made, which costs time, so a call takes the smallest that is long enough.
ghost use Rattle.std.specs.Prelude.{◌≡◌, true, ◌<◌, ◌≤◌};
ghost use Rattle.call.specs.Ladder.{HasRoom, small_rows, small_rules};

use bank::index::INDEX_WIDTH;
use bank::notes::NOTE_WIDTH;
use model::limits::{MOST_CONTEXTS, MOST_ROWS, MOST_RULES};

// Rows, from the smallest room on. Where more are used than the last, arrays are as long as the record table can be.
pub const TINY_ROWS: usize = 384;

pub const SMALL_ROWS: usize = 1024;

pub const MID_ROWS: usize = 2048;

// Transitions: there are fewer than this.
pub const TINY_RULES: usize = 40;

pub const SMALL_RULES: usize = 64;

pub const MID_RULES: usize = 128;

// The lengths of the arrays of each room.
pub const TINY_INDEX: usize = INDEX_WIDTH * TINY_ROWS;

pub const TINY_TABLE: usize = MOST_CONTEXTS * TINY_RULES;

pub const TINY_NOTES: usize = NOTE_WIDTH * TINY_ROWS;

pub const SMALL_INDEX: usize = INDEX_WIDTH * SMALL_ROWS;

pub const SMALL_TABLE: usize = MOST_CONTEXTS * SMALL_RULES;

pub const SMALL_NOTES: usize = NOTE_WIDTH * SMALL_ROWS;

pub const MID_INDEX: usize = INDEX_WIDTH * MID_ROWS;

pub const MID_TABLE: usize = MOST_CONTEXTS * MID_RULES;

pub const MID_NOTES: usize = NOTE_WIDTH * MID_ROWS;

pub const WIDE_INDEX: usize = INDEX_WIDTH * MOST_ROWS;

pub const WIDE_TABLE: usize = MOST_CONTEXTS * (MOST_RULES + 1);

pub const WIDE_NOTES: usize = NOTE_WIDTH * MOST_ROWS;

// A room's size.
#[derive(Clone, Copy, PartialEq, Eq, Debug)]
pub enum Size {
    Tiny,
    Small,
    Mid,
    Wide,
}

// Whether small room is enough for rows and transitions.
pub fn is_small(rows: usize, rules: u16) -> bool
    ensures { result ≡ true → (rows ≤ small_rows) × (rules < small_rules) }
{
    rows <= SMALL_ROWS && (rules as usize) < SMALL_RULES
}

// The smallest room that is enough for rows and transitions.
pub fn size_for(rows: usize, rules: u16) -> Size
    ensures { HasRoom result rows rules }
{
    if rows <= TINY_ROWS && (rules as usize) < TINY_RULES {
        Size::Tiny
    } else if is_small(rows, rules) {
        Size::Small
    } else if rows <= MID_ROWS && (rules as usize) < MID_RULES {
        Size::Mid
    } else {
        Size::Wide
    }
}
