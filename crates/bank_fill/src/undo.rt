// The rows past the used ones, saved before a step and put back where the step runs short (§5.3).
// These rows belong to the host: a refused call leaves them as they were.
ghost use Rattle.std.specs.Prelude.{◌+◌, ◌*◌, ◌≤◌, length};
ghost use Rattle.model.specs.Limits.{row_width};
ghost use Rattle.bank_fill.specs.Saved.{Saved, PutBack};

use model::limits::ROW_WIDTH;
use std::cmp::min;

// Saves the rows from `used` on, and no others: the first of them at the front of `saved`.
pub fn save(words: &[u32], used: u16, saved: &mut [u32])
    requires { length words.now ≤ row_width * used + length saved.old }
    ensures { Saved words.now used saved.new }
{
    let first = min(ROW_WIDTH * used as usize, words.len());
    for (i, word) in words[first..].iter().enumerate() {
        saved[i] = *word;
    }
}

// Puts them back.
pub fn restore(words: &mut [u32], used: u16, saved: &[u32])
    requires { (row_width * used ≤ length words.old)
        × (length words.old ≤ row_width * used + length saved.now) }
    ensures { PutBack words.old used saved.now words.new }
{
    let start = ROW_WIDTH * used as usize;
    for i in start..words.len() {
        words[i] = saved[i - start];
    }
}
