// The output line that tells how a call ended (§8.5), written over the start of the room for it.
ghost use Rattle.std.specs.Prelude.{◌≡◌, ◌≤◌, length};
ghost use Rattle.model.specs.Base.{over};
ghost use Rattle.model.specs.Entry.{store_of};
ghost use Rattle.text.specs.Bytes.{reply_room};
ghost use Rattle.text.specs.Lines.{unread_text, agreed_text, seen_text};
ghost use Rattle.text_print.specs.Tells.{Tellable};

use crate::line::Line;
use model::{Judged, Row, Seen};

// An unread line.
pub fn tell_unread(out: &mut [u8]) -> usize
    requires { reply_room ≤ length out.old }
    ensures value { result ≡ length unread_text }
    ensures out { out.new ≡ over unread_text out.old }
{
    let mut line = Line::new(out);
    line.put(b"unread");
    line.end()
}

// An offer that got 32: the place of the symbol that found no rule, if the verdict has one.
pub fn tell_agreed(judged: Judged, out: &mut [u8]) -> usize
    requires { reply_room ≤ length out.old }
    ensures value { result ≡ length (agreed_text judged) }
    ensures out { out.new ≡ over (agreed_text judged) out.old }
{
    let mut line = Line::new(out);
    line.put(b"refused");
    line.put_number(32);
    if judged.outcome == 3 {
        line.put_number(judged.place);
    }
    line.end()
}

// What was seen of a call: a refusal, an acceptance, a question or a proposal, by the numbers that C reads (`Seen`).
pub fn tell(
    words: &[u32],
    counts: &[u8],
    used: u16,
    letters: &[u8],
    seen: Seen,
    out: &mut [u8],
) -> usize
    requires { Tellable words.now counts.now used seen × (reply_room ≤ length out.old) }
    ensures value { result ≡ length (seen_text letters.now (store_of words.now counts.now used) seen) }
    ensures out { let x = store_of words.now counts.now used in
        out.new ≡ over (seen_text letters.now x seen) out.old }
{
    let mut line = Line::new(out);
    if seen.number != 0 {
        line.put(b"refused");
        line.put_number(seen.number as u16);
    } else if seen.phase == 2 {
        line.put(b"accepted");
    } else if seen.phase == 1 {
        line.put(b"ask ");
        line.put_question(words, counts, used, letters, Row(seen.row));
    } else {
        line.put(b"propose");
        line.put_number(seen.states);
        line.put_number(seen.rules);
        line.put_number(seen.contexts);
    }
    line.end()
}
