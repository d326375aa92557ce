// text: how records and lines of a script are written and read: definitions, and what is promised of them (§8).
// No function is here: specs/ has the definitions, proofs/ what is proved of them.
#![tactic(auto)]

use model::Lists;
use model::limits::{MOST_LISTED, MOST_SYMBOLS};

// Bytes of input that count, and so of a line (§8.1).
pub const MOST_INPUT: usize = 65536;

// Rows that the script program lends (§8.1).
pub const SCRIPT_ROWS: usize = 2730;

// Room for any reply (§8.5).
pub const REPLY_ROOM: usize = 3 * MOST_LISTED + 8;

// Places of the table by which letters and counts are looked up: five for each byte.
pub const KNOWN_PLACES: usize = 1280;

// A script between two lines: 0 before the first line, 1 after it, 2 ended; the letters of the symbols; the run's own lists.
#[derive(Clone, Copy)]
pub struct Script {
    pub stage: u8,
    pub letters: [u8; MOST_SYMBOLS],
    pub lists: Lists,
}
