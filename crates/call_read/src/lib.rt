// call: looking, emitting and the verdict, by value, each in as much working memory as its tables need (§3.3, §3.7, §3.8).
// 18, 30, then what the call wants of sound tables.
#![tactic(auto)]

ghost use Rattle.std.specs.Prelude.{◌≡◌, true};
ghost use Rattle.model.specs.Calls.{looks};
ghost use Rattle.model.specs.Entry.{size_fits, lent_fits, call_seen, emit_seen, emit_out, judge_seen};
ghost use Rattle.model.specs.Refusals.{emitted_as, verdict_as};
ghost use Rattle.sound.specs.Working.{Room};
ghost use Rattle.call.specs.Ladder.{Enough};
ghost use Rattle.call_read.specs.Read.{Read, ReadAs, ReadTo, TakesRead, looked_seen};

use bank::notes;
use call::ladder::{
    MID_INDEX, MID_NOTES, MID_TABLE, SMALL_INDEX, SMALL_NOTES, SMALL_TABLE, Size, TINY_INDEX,
    TINY_NOTES, TINY_TABLE, WIDE_INDEX, WIDE_NOTES, WIDE_TABLE, size_for,
};
use model::limits::ROW_WIDTH;
use model::refusal::Refusal;
use model::{Emitted, Judged, Lists, Seen, Verdict};

// A step on sound tables, in the room lent: what it makes of their index, their representatives and an output; nothing for unsound
// tables. The output is an argument of the step: a caller learns nothing of what a closure captures by `&mut` and changes.
fn read_in<R, F: FnOnce(&[u16], &[u16], &mut [u8]) -> R + Drop>(
    words: &[u32],
    lists: Lists,
    index: &mut [u16],
    table: &mut [u8],
    notes: &mut [u16],
    out: &mut [u8],
    step: F,
) -> Option<R>
    requires { (size_fits words.now ≡ true)
        × (lent_fits words.now lists ≡ true)
        × Room words.now lists.rules index.old table.old notes.old
        × TakesRead words.now lists (F.pre step) }
    ensures { ReadAs words.now lists (F.post step) out.old result out.new }
{
    if !sound::lists_sound(words, lists, index, table, notes) {
        return None;
    }
    Some(step(index, notes::column(notes, 0), out))
}

// The same in arrays of these lengths. Each size has a frame of its own: a small call touches no page of wide arrays.
#[inline(never)]
fn read_room<
    const INDEX: usize,
    const TABLE: usize,
    const NOTES: usize,
    R,
    F: FnOnce(&[u16], &[u16], &mut [u8]) -> R + Drop,
>(words: &[u32], lists: Lists, out: &mut [u8], step: F) -> Option<R>
    requires { (size_fits words.now ≡ true)
        × (lent_fits words.now lists ≡ true)
        × Enough words.now lists.rules INDEX TABLE NOTES
        × TakesRead words.now lists (F.pre step) }
    ensures { ReadAs words.now lists (F.post step) out.old result out.new }
{
    let mut index = [0u16; INDEX];
    let mut table = [0u8; TABLE];
    let mut notes = [0u16; NOTES];
    read_in(words, lists, &mut index, &mut table, &mut notes, out, step)
}

// In the smallest room that is enough for the rows lent.
fn read<R, F: FnOnce(&[u16], &[u16], &mut [u8]) -> R + Drop>(
    words: &[u32],
    lists: Lists,
    out: &mut [u8],
    step: F,
) -> Option<R>
    requires { (size_fits words.now ≡ true)
        × (lent_fits words.now lists ≡ true)
        × TakesRead words.now lists (F.pre step) }
    ensures { ReadAs words.now lists (F.post step) out.old result out.new }
{
    match size_for(words.len() / ROW_WIDTH, lists.rules) {
        Size::Tiny => read_room::<TINY_INDEX, TINY_TABLE, TINY_NOTES, R, F>(
            words, lists, out, step,
        ),
        Size::Small => read_room::<SMALL_INDEX, SMALL_TABLE, SMALL_NOTES, R, F>(
            words, lists, out, step,
        ),
        Size::Mid => read_room::<MID_INDEX, MID_TABLE, MID_NOTES, R, F>(words, lists, out, step),
        Size::Wide => read_room::<WIDE_INDEX, WIDE_TABLE, WIDE_NOTES, R, F>(
            words, lists, out, step,
        ),
    }
}

// How many words a call reads that adds no row: those of the used rows where they are some, and lent; else all.
fn words_read(used: u16, size: usize) -> usize
    ensures { ReadTo used size result }
{
    if used == 0 {
        return size;
    }
    size.min(ROW_WIDTH * used as usize)
}

// What refuses any call, whatever it asks: 18, then 30 for lists that do not fit and for unsound tables.
pub fn looked(words: &[u32], lists: Lists) -> Result<(), Refusal>
    ensures { looked_seen lists result ≡ call_seen words.now lists looks }
{
    call::lent_fault(words, lists)?;
    let used = &words[..words_read(lists.used, words.len())];
    match read(used, lists, &mut [], |_, _, _| ()) {
        Some(()) => Ok(()),
        None => Err(Refusal::Unsound),
    }
}

// Looking: 18, 30, then what looking tells.
pub fn look(words: &[u32], lists: Lists) -> Seen
    ensures { result ≡ call_seen words.now lists looks }
{
    match looked(words, lists) {
        Ok(()) => call::told(lists),
        Err(refusal) => Seen::from(refusal),
    }
}

// The verdict on a listed record, or what refuses it: 18, 30, 31, 11 to 15.
fn judged(words: &[u32], lists: Lists, symbols: &[u8]) -> Result<Verdict, Refusal>
    ensures { verdict_as result ≡ judge_seen words.now lists symbols.now }
{
    call::lent_fault(words, lists)?;
    let used = &words[..words_read(lists.used, words.len())];
    let verdict = read(
        used,
        lists,
        &mut [],
        |index, reps, _|
            requires { Read used.now lists index.now reps.now }
        { call_verdict::judge_sound(used, lists, symbols, index, reps) },
    );
    match verdict {
        Some(verdict) => verdict,
        None => Err(Refusal::Unsound),
    }
}

// The verdict on a listed record by its numbers: the outcome and its place.
pub fn verdict(words: &[u32], lists: Lists, symbols: &[u8]) -> Judged
    ensures { result ≡ judge_seen words.now lists symbols.now }
{
    match judged(words, lists, symbols) {
        Ok(verdict) => Judged::from(verdict),
        Err(refusal) => Judged::from(refusal),
    }
}

// The list of the proposed automaton: the count of its bytes, or what refuses it: 18, 30, 31, 20.
fn listed(words: &[u32], lists: Lists, out: &mut [u8]) -> Result<u32, Refusal>
    ensures value { emitted_as result ≡ emit_seen words.now lists out.old }
    ensures bytes { out.new ≡ emit_out words.now lists out.old }
{
    call::lent_fault(words, lists)?;
    let size = read(
        words,
        lists,
        out,
        |index, reps, out|
            requires { Read words.now lists index.now reps.now }
        { call_emit::emit_sound(words, lists, reps, out) },
    );
    match size {
        Some(size) => size,
        None => Err(Refusal::Unsound),
    }
}

// Emitting: the bytes and their count.
pub fn emit(words: &[u32], lists: Lists, out: &mut [u8]) -> Emitted
    ensures value { result ≡ emit_seen words.now lists out.old }
    ensures bytes { out.new ≡ emit_out words.now lists out.old }
{
    match listed(words, lists, out) {
        Ok(size) => Emitted { number: 0, size },
        Err(refusal) => Emitted::from(refusal),
    }
}
