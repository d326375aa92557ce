// The line that is being written over the start of the room for it (§8.5).
ghost use Rattle.std.specs.Prelude.{◌≡◌, ◌∷◌, ◌++◌, [], ◌+◌, ◌≤◌, ◌<◌, length};
ghost use Rattle.model.specs.Limits.{most_rows};
ghost use Rattle.model.specs.Entry.{store_of};
ghost use Rattle.bank.specs.Bank.{Stored};
ghost use Rattle.text.specs.Bytes.{space, newline, digit_at, decimal, question_room};
ghost use Rattle.text.specs.Lines.{question_text};
ghost use Rattle.text_print.specs.Writing.{Wrote};

use crate::print;
use model::Row;
use model::limits::MOST_LISTED;

// The room, and the place of the next byte in it.
#[derive(Drop)]
pub(crate) struct Line<'a> {
    out: &'a mut [u8],
    at: usize,
}

impl<'a> Line<'a> {
    pub(crate) fn new(out: &'a mut [u8]) -> Line<'a>
        ensures same_room { result.out.ghost_name ≡ out.entry.ghost_name }
        ensures start { (result.at ≡ 0) × (result.out.now ≡ out.old) }
    {
        Line { out, at: 0 }
    }

    // Bytes behind those that are written.
    pub(crate) fn put(&mut self, bytes: &[u8])
        requires { self.old.at + length bytes.now ≤ length self.old.out.now }
        ensures { Wrote bytes.now self.old self.new }
    {
        self.at = list::put_bytes(self.out, self.at, bytes);
    }

    // A digit, if the number reaches its power of ten.
    fn put_digit(&mut self, n: u16, power: u16)
        requires { (0 < power) × (self.old.at + 1 ≤ length self.old.out.now) }
        ensures { Wrote (digit_at n power) self.old self.new }
    {
        if n >= power {
            self.put(&[b'0' + (n / power % 10) as u8]);
        }
    }

    // A number in decimal.
    fn put_decimal(&mut self, n: u16)
        requires { self.old.at + 5 ≤ length self.old.out.now }
        ensures written { Wrote (decimal n) self.old self.new }
        ensures few { self.new.at ≤ self.old.at + 5 }
    {
        self.put_digit(n, 10000);
        self.put_digit(n, 1000);
        self.put_digit(n, 100);
        self.put_digit(n, 10);
        self.put(&[b'0' + (n % 10) as u8]);
    }

    // A space and a number.
    pub(crate) fn put_number(&mut self, n: u16)
        requires { self.old.at + 6 ≤ length self.old.out.now }
        ensures written { Wrote (space ∷ decimal n) self.old self.new }
        ensures few { self.new.at ≤ self.old.at + 6 }
    {
        self.put(b" ");
        self.put_decimal(n);
    }

    // The record of a question, or its row if it has more than 1,024 symbols.
    pub(crate) fn put_question(
        &mut self,
        words: &[u32],
        counts: &[u8],
        used: u16,
        letters: &[u8],
        row: Row,
    )
        requires { Stored words.now counts.now used
            × (used ≤ most_rows)
            × (row.0 < used)
            × (self.old.at + question_room ≤ length self.old.out.now) }
        ensures written { let x = store_of words.now counts.now used in
            Wrote (question_text letters.now x row.0) self.old self.new }
        ensures few { self.new.at ≤ self.old.at + question_room }
    {
        if bank_listed::sizes::size_of(words, counts, used, row) as usize <= MOST_LISTED {
            self.at = print::print_record(words, counts, used, letters, row, self.out, self.at);
        } else {
            self.put(b"row");
            self.put_number(row.0);
        }
    }

    // The end of the line, and how long it is.
    pub(crate) fn end(&mut self) -> usize
        requires { self.old.at + 1 ≤ length self.old.out.now }
        ensures written { Wrote (newline ∷ []) self.old self.new }
        ensures long { result ≡ self.new.at }
    {
        self.put(b"\n");
        self.at
    }
}
