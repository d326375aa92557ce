// text: the reply to any line of a script, from any contents (§8).
// The output line and the script after it. Nothing is required.
#![tactic(auto)]

ghost use Rattle.std.specs.Prelude.{◌≡◌, ◌≤◌, min, eqb, length, drop};
ghost use Rattle.model.specs.Limits.{most_symbols};
ghost use Rattle.model.specs.Entry.{judge_seen};
ghost use Rattle.model.specs.Refusals.{refused_by};
ghost use Rattle.call.specs.Calls.{done_seen, done_lists, DoneFit};
ghost use Rattle.text.specs.Bytes.{most_input, reply_room};
ghost use Rattle.text.specs.Reading.{read_text};
ghost use Rattle.text.specs.Alphabet.{alphabet_of};
ghost use Rattle.text.specs.Lines.{line_of, offering, unread_text, agreed_text};
ghost use Rattle.text.specs.Script.{reply as reply_with, script as script_of, told as told_of, offer_told, fresh_script, letters_of, counts_of, opened as opened_of, heard, reply_to};
ghost use Rattle.text_read.specs.Reads.{TextAs};
ghost use Rattle.text_print.specs.Tells.{Tellable};
ghost use Rattle.text_reply.specs.Replies.{ReplyAs};

use model::limits::MOST_SYMBOLS;
use model::refusal::Refusal;
use model::{Lists, Seen};
use run_lists::change;
use text::{MOST_INPUT, REPLY_ROOM, Script};
use text_lines::lines::Asked;
use text_lines::{lines, open};
use text_print::tell;

// The bytes of a reply, and the script after it.
#[derive(Clone, Copy)]
pub struct Replied {
    pub size: usize,
    pub script: Script,
}

// A script before its first line.
pub fn fresh() -> Script
    ensures { result ≡ fresh_script }
{
    Script {
        stage: 0,
        letters: [0; MOST_SYMBOLS],
        lists: change::zeros(),
    }
}

// A script at another stage.
fn at_stage(z: Script, stage: u8) -> Script
    ensures { result ≡ script_of stage z.letters z.lists }
{
    Script { stage: stage, ..z }
}

// How many letters are in their array.
fn letters_in(letters: u8) -> usize
    ensures { (result ≤ most_symbols) × (result ≡ min letters most_symbols) }
{
    (letters as usize).min(MOST_SYMBOLS)
}

// A line that is unread: it is no call.
fn unread(words: &[u32], script: Script, out: &mut [u8]) -> Replied
    requires { reply_room ≤ length out.old }
    ensures { ReplyAs (reply_with unread_text words.now script) result words.now out.old out.new }
{
    let size = tell::tell_unread(out);
    Replied {
        size: size,
        script: script,
    }
}

// A call that was made, of which this was seen.
fn told(words: &[u32], script: Script, seen: Seen, out: &mut [u8]) -> Replied
    requires { Tellable words.now (counts_of script) script.lists.used seen
        × (reply_room ≤ length out.old) }
    ensures { ReplyAs (told_of words.now script seen) result words.now out.old out.new }
{
    let letters = script.letters;
    let lists = script.lists;
    let counts = lists.counts;
    let n = letters_in(lists.letters);
    let size = tell::tell(words, &counts[..n], lists.used, &letters[..n], seen, out);
    Replied {
        size: size,
        script: script,
    }
}

// A call that was made: the reply tells of it, and the script goes on with the lists that it left.
fn made(words: &[u32], script: Script, done: Result<Lists, Refusal>, out: &mut [u8]) -> Replied
    requires { let after = script_of script.stage script.letters (done_lists script.lists done) in
        DoneFit done
        × Tellable words.now (counts_of after) after.lists.used (done_seen done)
        × (reply_room ≤ length out.old) }
    ensures { let after = script_of script.stage script.letters (done_lists script.lists done) in
        ReplyAs (told_of words.now after (done_seen done)) result words.now out.old out.new }
{
    let mut after = script;
    let seen = call::finish(&mut after.lists, done);
    told(words, after, seen, out)
}

// An offer that got 32: the verdict on its record is asked, and its place told. It leaves lists and words.
fn agreed(words: &[u32], script: Script, symbols: &[u8], out: &mut [u8]) -> Replied
    requires { reply_room ≤ length out.old }
    ensures { let text = agreed_text (judge_seen words.now script.lists symbols.now) in
        ReplyAs (reply_with text words.now script) result words.now out.old out.new }
{
    let judged = call_read::verdict(words, script.lists, symbols);
    let size = tell::tell_agreed(judged, out);
    Replied { size, script }
}

// Whether an offer is refused for what the proposed automaton says already. A function of its own, as `lacks_rows` in call_room.
fn agrees(done: &Result<Lists, Refusal>) -> bool
    ensures { result ≡ eqb (refused_by done.now) 32 }
{
    matches!(done, Err(Refusal::Agrees))
}

// An offer that was made: told as any call, but where it got 32 with the verdict on its record.
fn offered(
    words: &[u32],
    script: Script,
    done: Result<Lists, Refusal>,
    symbols: &[u8],
    out: &mut [u8],
) -> Replied
    requires { let after = script_of script.stage script.letters (done_lists script.lists done) in
        DoneFit done
        × Tellable words.now (counts_of after) after.lists.used (done_seen done)
        × (reply_room ≤ length out.old) }
    ensures { let after = script_of script.stage script.letters (done_lists script.lists done) in
        let reply = offer_told words.now after symbols.now (done_seen done) in
        ReplyAs reply result words.now out.old out.new }
{
    if agrees(&done) {
        return agreed(words, script, symbols, out);
    }
    made(words, script, done, out)
}

// The first line: unread or refused, it ends the script.
fn first(words: &mut [u32], script: Script, line: &[u8], out: &mut [u8]) -> Replied
    requires { reply_room ≤ length out.old }
    ensures { let reply = opened_of words.old script (alphabet_of line.now) in
        ReplyAs reply result words.new out.old out.new }
{
    let mut letters = script.letters;
    let mut counts = [0u8; MOST_SYMBOLS];
    let Some(n) = open::alphabet_of(line, &mut letters, &mut counts) else {
        return unread(words, at_stage(script, 2), out);
    };
    match call::start(words, &counts[..n]) {
        Ok(lists) => {
            let begun = Script {
                stage: 1,
                letters,
                lists,
            };
            told(words, begun, call::told(lists), out)
        }
        Err(refusal) => told(words, at_stage(script, 2), Seen::from(refusal), out),
    }
}

// The symbols of the record behind a line's sign and space, at the start of a text; how many there are, if it is read.
fn record_in(script: Script, line: &[u8], text: &mut [u8; MOST_INPUT]) -> Option<usize>
    requires { (length text.old ≡ most_input)
        × (2 ≤ length line.now)
        × (length line.now ≤ most_input) }
    ensures { TextAs (read_text (letters_of script) (counts_of script) (drop 2 line.now)) result text.new }
{
    let letters = script.letters;
    let lists = script.lists;
    let counts = lists.counts;
    let n = letters_in(lists.letters);
    let read = &mut text[..line.len() - 2];
    read.copy_from_slice(&line[2..]);
    text_read::read_text(read, &letters[..n], &counts[..n])
}

// An offer: its record is read, and it is made if there is one.
fn offer(words: &mut [u32], script: Script, line: &[u8], mark: u8, out: &mut [u8]) -> Replied
    requires { (reply_room ≤ length out.old)
        × (2 ≤ length line.now)
        × (length line.now ≤ most_input) }
    ensures { let text = read_text (letters_of script) (counts_of script) (drop 2 line.now) in
        let reply = heard words.old script (offering text mark) in
        ReplyAs reply result words.new out.old out.new }
{
    let mut text = [0u8; MOST_INPUT];
    let Some(size) = record_in(script, line, &mut text) else {
        return unread(words, script, out);
    };
    let done = call_room::offer(words, script.lists, &text[..size], mark);
    offered(words, script, done, &text[..size], out)
}

// A later line.
fn later(words: &mut [u32], script: Script, line: &[u8], out: &mut [u8]) -> Replied
    requires { reply_room ≤ length out.old }
    ensures { let reply = heard words.old script (line_of (letters_of script) (counts_of script) line.now) in
        ReplyAs reply result words.new out.old out.new }
{
    match lines::asked_of(line) {
        Asked::Nothing => unread(words, script, out),
        Asked::Answer(mark) => {
            let answered = call_room::answer(words, script.lists, mark);
            made(words, script, answered, out)
        }
        Asked::Accept => {
            let accepted = call_room::accept(words, script.lists);
            made(words, script, accepted, out)
        }
        Asked::Offer(mark) => offer(words, script, line, mark, out),
    }
}

// The reply to any line: none once the script has ended, or where it might not fit.
#[tactic(auto, using(crate::proofs::Laws::Replying::no_room, crate::proofs::Laws::Replying::at_first, crate::proofs::Laws::Replying::at_later, crate::proofs::Laws::Replying::at_end))]
pub fn reply(words: &mut [u32], script: Script, line: &[u8], out: &mut [u8]) -> Replied
    ensures { let reply = reply_to words.old script line.now (length out.old) in
        ReplyAs reply result words.new out.old out.new }
{
    if out.len() < REPLY_ROOM {
        return Replied {
            size: 0,
            script: script,
        };
    }
    // A number, since a caller may hand over a script at any stage: an enum would ask more.
    match script.stage {
        0 => first(words, script, line, out),
        1 => later(words, script, line, out),
        _ => Replied {
            size: 0,
            script: script,
        },
    }
}
