// call: one answer or offer, in working memory of each of the four sizes (§3).
// The rows past the used ones are saved in what the caller lends.
#![tactic(auto)]

ghost use Rattle.std.specs.Prelude.{◌≡◌, true, ◌+◌, ◌*◌, ◌≤◌, length};
ghost use Rattle.model.specs.Limits.{row_width};
ghost use Rattle.model.specs.Entry.{size_fits, lent_fits};
ghost use Rattle.call.specs.Ladder.{Enough};
ghost use Rattle.call.specs.Calls.{CallAs};
ghost use Rattle.call.specs.Said.{call_of};

use call::Said;
use call::ladder::{
    MID_INDEX, MID_NOTES, MID_TABLE, SMALL_INDEX, SMALL_NOTES, SMALL_TABLE, Size, TINY_INDEX,
    TINY_NOTES, TINY_TABLE, WIDE_INDEX, WIDE_NOTES, WIDE_TABLE, size_for,
};
use model::Lists;
use model::limits::{MOST_WORDS, ROW_WIDTH};
use model::refusal::Refusal;

// In arrays of these lengths. Each size has a frame of its own: a small call touches no page of wide arrays.
#[inline(never)]
pub fn in_room<const INDEX: usize, const TABLE: usize, const NOTES: usize>(
    words: &mut [u32],
    lists: Lists,
    symbols: &[u8],
    said: Said,
    saved: &mut [u32],
) -> Result<Lists, Refusal>
    requires { (size_fits words.old ≡ true)
        × (lent_fits words.old lists ≡ true)
        × (length words.old ≤ row_width * lists.used + length saved.old)
        × Enough words.old (lists.rules + 1) INDEX TABLE NOTES }
    ensures { CallAs words.old lists (call_of said symbols.now) result words.new }
{
    let mut index = [0u16; INDEX];
    let mut table = [0u8; TABLE];
    let mut notes = [0u16; NOTES];
    call_take::call_in(
        words, lists, symbols, said, saved, &mut index, &mut table, &mut notes,
    )
}

// In the smallest room that is enough. The arms stand here and in call_read: each makes arrays of another size for another step.
pub fn in_smallest(
    words: &mut [u32],
    lists: Lists,
    symbols: &[u8],
    said: Said,
    saved: &mut [u32],
) -> Result<Lists, Refusal>
    requires { (size_fits words.old ≡ true)
        × (lent_fits words.old lists ≡ true)
        × (length words.old ≤ row_width * lists.used + length saved.old) }
    ensures { CallAs words.old lists (call_of said symbols.now) result words.new }
{
    match size_for(words.len() / ROW_WIDTH, lists.rules) {
        Size::Tiny => {
            in_room::<TINY_INDEX, TINY_TABLE, TINY_NOTES>(words, lists, symbols, said, saved)
        }
        Size::Small => {
            in_room::<SMALL_INDEX, SMALL_TABLE, SMALL_NOTES>(words, lists, symbols, said, saved)
        }
        Size::Mid => in_room::<MID_INDEX, MID_TABLE, MID_NOTES>(words, lists, symbols, said, saved),
        Size::Wide => {
            in_room::<WIDE_INDEX, WIDE_TABLE, WIDE_NOTES>(words, lists, symbols, said, saved)
        }
    }
}

// With all rows saved, in the smallest room that is enough.
#[inline(never)]
pub fn with_all(
    words: &mut [u32],
    lists: Lists,
    symbols: &[u8],
    said: Said,
) -> Result<Lists, Refusal>
    requires { (size_fits words.old ≡ true) × (lent_fits words.old lists ≡ true) }
    ensures { CallAs words.old lists (call_of said symbols.now) result words.new }
{
    let mut saved = [0u32; MOST_WORDS];
    in_smallest(words, lists, symbols, said, &mut saved)
}
