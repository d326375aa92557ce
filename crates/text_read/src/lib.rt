// text: records read from text: the record reader and the child-list reader call each other (§8.4).
// What is left of the text falls. Symbols are written over the text that has been read: there are never more of them than bytes before them.
#![tactic(auto)]

ghost use Rattle.std.specs.Prelude.{◌≡◌, ◌+◌, ◌-◌, ◌≤◌, length, take, drop};
ghost use Rattle.model.specs.Limits.{most_symbols};
ghost use Rattle.text.specs.Bytes.{most_input};
ghost use Rattle.text.specs.Reading.{known_of, balanced_from, record_at, list_at, closed, read_text};
ghost use Rattle.text_read.specs.Reads.{Reads, read_code, ReadAs, TextAs};

use text::KNOWN_PLACES;

// What a reader gives, in one number: the place after a record, above the last 17 bits, and how many symbols are read; 0 for no record.
// Not an Option of two numbers: that goes through memory, so the last calls of the readers are no jumps, and each sibling takes stack.
fn upto(next: u32, size: u32) -> u64
    requires { (next ≤ most_input) × (size ≤ most_input) }
    ensures { result ≡ read_code next size }
{
    131072 * next as u64 + size as u64
}

// A letter and a count at which no symbol is known.
const NONE: u8 = 255;

// The symbols by letter and count of children, five places a byte.
fn index(letters: &[u8], counts: &[u8]) -> [u8; KNOWN_PLACES]
    requires { (length letters.now ≡ length counts.now) × (length letters.now ≤ most_symbols) }
    ensures { result ≡ known_of letters.now counts.now }
{
    let mut known = [NONE; KNOWN_PLACES];
    for (i, letter) in letters.iter().enumerate() {
        let count = counts[i];
        if count <= 4 {
            let place = 5 * *letter as usize + count as usize;
            known[place] = i as u8;
        }
    }
    known
}

// Whether no bracket closes before it opened, and none stays open.
fn is_balanced(text: &[u8]) -> bool
    ensures { result ≡ balanced_from 0 text.now }
{
    let mut depth = 0usize;
    for byte in text {
        match *byte {
            b']' if depth == 0 => return false,
            b']' => depth -= 1,
            b'[' => depth += 1,
            _ => {}
        }
    }
    depth == 0
}

// A record's letter and children have been read: its symbol is looked up by both.
fn close(
    text: &mut [u8],
    known: &[u8; KNOWN_PLACES],
    letter: u8,
    count: u8,
    next: u32,
    size: u32,
) -> u64
    requires { Reads text.old known.now next size × (count ≤ 4) × (size + 1 ≤ next) }
    ensures { let reading = closed known.now letter count (take size text.old) (drop next text.old) in
        ReadAs reading result (next - 1) text.old text.new }
{
    let place = 5 * letter as usize + count as usize;
    let symbol = known[place];
    if symbol == NONE {
        return 0;
    }
    text[size as usize] = symbol;
    upto(next, size + 1)
}

// A record: a letter, then its children if a bracket opens.
#[cycle(read_list_read_record)]
fn read_record(text: &mut [u8], known: &[u8; KNOWN_PLACES], at: u32, size: u32) -> u64
    requires { Reads text.old known.now at size }
    ensures { let reading = record_at known.now (take size text.old) (drop at text.old) in
        ReadAs reading result at text.old text.new }
{
    let Some(letter) = text.get(at as usize).copied() else {
        return 0;
    };
    if text.get(at as usize + 1).copied() == Some(b'[') {
        return read_list(text, known, letter, 1, at + 2, size);
    }
    close(text, known, letter, 0, at + 1, size)
}

// The k-th child of a record and those after it, up to the closing bracket.
#[cycle(read_list_read_record)]
fn read_list(
    text: &mut [u8],
    known: &[u8; KNOWN_PLACES],
    letter: u8,
    child: u8,
    at: u32,
    size: u32,
) -> u64
    requires { Reads text.old known.now at size × (child ≤ 4) × (size + 1 ≤ at) }
    ensures { let reading = list_at known.now letter child (take size text.old) (drop at text.old) in
        ReadAs reading result at text.old text.new }
{
    let child_read = read_record(text, known, at, size);
    if child_read == 0 {
        return 0;
    }
    let next = (child_read / 131072) as u32;
    let n = (child_read % 131072) as u32;
    match text.get(next as usize).copied() {
        Some(b']') => close(text, known, letter, child, next + 1, n),
        Some(b',') if child < 4 => read_list(text, known, letter, child + 1, next + 1, n),
        _ => 0,
    }
}

// Reads a whole text as one record: its symbols, children before parent, over the start of the text; how many there are, or no record.
pub fn read_text(text: &mut [u8], letters: &[u8], counts: &[u8]) -> Option<usize>
    requires { (length text.old ≤ most_input)
        × (length letters.now ≡ length counts.now)
        × (length letters.now ≤ most_symbols) }
    ensures text { TextAs (read_text letters.now counts.now text.old) result text.new }
    ensures room { length text.new ≡ length text.old }
{
    if !is_balanced(text) {
        return None;
    }
    let known = index(letters, counts);
    let whole = read_record(text, &known, 0, 0);
    let size = (whole % 131072) as usize;
    if (whole / 131072) as usize != text.len() || size == 0 {
        return None;
    }
    Some(size)
}
