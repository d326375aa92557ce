// call: one answer or offer, given its working memory: 30, the lines of its own, then it is taken (§3.4, §3.5, §5.3).
// The function mirrors `call` in model's Calls.
#![tactic(auto)]

ghost use Rattle.std.specs.Prelude.{◌≡◌, true, ◌+◌, ◌*◌, ◌≤◌, length};
ghost use Rattle.model.specs.Limits.{most_contexts, row_width};
ghost use Rattle.model.specs.Entry.{size_fits, lent_fits};
ghost use Rattle.sound.specs.Working.{Room};
ghost use Rattle.call.specs.Calls.{CallAs};
ghost use Rattle.call.specs.Said.{call_of};

use bank::notes;
use call::Said;
use model::Lists;
use model::refusal::Refusal;

mod take; // take.rt: what no line refuses is stored, then the step; where it runs short, all is put back

// What was said to tables of a size that fits, in lists that fit, with room to work in and to save the rows in.
pub fn call_in(
    words: &mut [u32],
    lists: Lists,
    symbols: &[u8],
    said: Said,
    saved: &mut [u32],
    index: &mut [u16],
    table: &mut [u8],
    notes: &mut [u16],
) -> Result<Lists, Refusal>
    requires { (size_fits words.old ≡ true)
        × (lent_fits words.old lists ≡ true)
        × (length words.old ≤ row_width * lists.used + length saved.old)
        × Room words.old lists.rules index.old table.old notes.old
        × (most_contexts * (lists.rules + 1) ≤ length table.old) }
    ensures { CallAs words.old lists (call_of said symbols.now) result words.new }
{
    if !sound::lists_sound(words, lists, index, table, notes) {
        return Err(Refusal::Unsound);
    }
    let reps = notes::column(notes, 0);
    call_faults::fault_of(words, lists, symbols, said, index, reps)?;
    take::take(words, lists, symbols, said, saved, index, table, notes)
}
