// The numbers of the specification (§11) for the code, each under one name. specs/Limits.antt has the same for contracts and proofs.

// An alphabet has 1 to this many symbols (§1.1).
pub const MOST_SYMBOLS: usize = 64;

// The symbol of row 0, the hole, which no alphabet has (§2.1).
pub const HOLE_SYMBOL: u32 = 255;

// Numbers in a row of the record table: symbol, answer, four children (§2.1).
pub const ROW_WIDTH: usize = 6;

// Rows of the record table (§2.1).
pub const MOST_ROWS: usize = 16384;

// Numbers in a record table of all rows.
pub const MOST_WORDS: usize = ROW_WIDTH * MOST_ROWS;

// Room in the run's lists (§2.2).
pub const MOST_STATES: usize = 32;

pub const MOST_RULES: usize = 256;

pub const MOST_CONTEXTS: usize = 289;

// Symbols of a listed record (§3.4, §3.8).
pub const MOST_LISTED: usize = 1024;

// What a host is lent and returned, and by which calls (§11). It goes up with each change of a layout or of a call, and with
// each new call; 1 was the layout with padding.
pub const VERSION: u32 = 4;
