// products: the script program: it answers each line of standard input as soon as it is there, with the reply function (§8).
#![tactic(auto)]

ghost use Rattle.std.specs.Prelude.{◌≡◌, true, cond, ◌*◌, ◌≤◌, eqb, length, drop, replicate};
ghost use Rattle.model.specs.Limits.{row_width};
ghost use Rattle.text.specs.Bytes.{most_input, reply_room};
ghost use Rattle.text.specs.Script.{script_rows, replied_to};
ghost use Rattle.script.specs.LineEnd.{line_end, line_at, whole_from};
ghost use Rattle.script.specs.Turns.{TurnAs, Reached, Answered};
ghost use Rattle.script.specs.Read.{ReadAs, RanAs};

use model::limits::ROW_WIDTH;
use std::io::Read;
use text::{MOST_INPUT, REPLY_ROOM, SCRIPT_ROWS, Script};

// After a turn: the bytes of the reply, the script, and the place behind the line.
#[derive(Clone, Copy)]
pub struct Turned {
    pub size: usize,
    pub script: Script,
    pub next: usize,
}

// After lines: whether every reply was written, the script, and the place behind them.
// No Result: the place and the script are said where a write failed, too (`Answered`).
#[derive(Clone, Copy)]
pub struct Left {
    pub written: bool,
    pub script: Script,
    pub at: usize,
}

// After the whole input: whether every reply was written, and the bytes read, which are said in both cases (`RanAs`).
#[derive(Clone, Copy)]
pub struct Ran {
    pub written: bool,
    pub read: usize,
}

// Where the line that begins at a place ends: at its newline, or at the end of the input.
fn line_end(input: &[u8], from: usize) -> usize
    requires { from ≤ length input.now }
    ensures { result ≡ line_end input.now from }
{
    let rest = &input[from..];
    let place = rest.iter().position(|byte| *byte == b'\n');
    from + place.unwrap_or(rest.len())
}

// A turn: the reply to the line that begins at a place.
fn turn(words: &mut [u32], script: Script, input: &[u8], at: usize, out: &mut [u8]) -> Turned
    requires { (at ≤ length input.now) × (reply_room ≤ length out.old) }
    ensures { let bs = input.now in
        let p = replied_to words.old script (line_at bs at) in
        TurnAs p (line_end bs at) result words.new out.old out.new }
{
    let end = line_end(input, at);
    let replied = text_reply::reply(words, script, &input[at..end], out);
    let after = replied.script;
    Turned {
        size: replied.size,
        script: after,
        next: end + 1,
    }
}

// Answers the lines from a place on: a turn and a write for each.
fn answer(
    rt: HostRuntime,
    words: &mut [u32],
    script: Script,
    input: &[u8],
    at: usize,
    out: &mut [u8],
) -> Left
    requires { Reached input.now words.old script at × (reply_room ≤ length out.old) }
    ensures { Answered input.now words.new result }
{
    let mut script = script;
    let mut at = at;
    while at < input.len() {
        let turned = turn(words, script, input, at, out);
        script = turned.script;
        at = turned.next;
        let size = turned.size;
        if rt.write_all(&out[..size]).is_err() {
            return Left {
                written: false,
                script: script,
                at: at,
            };
        }
    }
    Left {
        written: true,
        script: script,
        at: at,
    }
}

// Reads what is there behind the bytes read so far: 0 bytes at the end of the input, at an error, and where the room is full.
fn read_more(rt: HostRuntime, input: &mut [u8], read: usize) -> usize
    requires { read ≤ length input.old }
    ensures { ReadAs input.old read result input.new }
{
    if read == input.len() {
        return 0;
    }
    let mut from = rt.stdin();
    match from.read(&mut input[read..]) {
        Ok(got) => got,
        Err(_) => 0,
    }
}

// How far the input can be answered: to behind its last newline, of which those before a place are known, or to its end if no more came.
fn whole(input: &[u8], at: usize, from: usize) -> usize
    requires { from ≤ length input.now }
    ensures { let bs = input.now in
        result ≡ cond (eqb from (length bs)) from (whole_from from at (drop from bs)) }
{
    if from == input.len() {
        return from;
    }
    let mut end = at;
    // Forwards, as `whole_from` goes: the clause of `rposition` speaks of steps from the back.
    for i in from..input.len() {
        if input[i] == b'\n' {
            end = i + 1;
        }
    }
    end
}

// Reads and answers in turn, until the input ends or a write fails.
fn run(rt: HostRuntime, words: &mut [u32], input: &mut [u8], out: &mut [u8]) -> Ran
    requires { (words.old ≡ replicate (row_width * script_rows) 0)
        × (length input.old ≡ most_input)
        × (reply_room ≤ length out.old) }
    ensures { RanAs input.new words.new result }
{
    let mut script = text_reply::fresh();
    let mut at = 0;
    let mut read = 0;
    loop {
        let got = read_more(rt, input, read);
        let size = read + got;
        let end = whole(&input[..size], at, read);
        let left = answer(rt, words, script, &input[..end], at, out);
        script = left.script;
        at = left.at;
        let written = left.written;
        if got == 0 || !written {
            return Ran {
                written: written,
                read: size,
            };
        }
        read = size;
    }
}

fn main(rt: HostRuntime) {
    let mut words = [0u32; ROW_WIDTH * SCRIPT_ROWS];
    let mut input = [0u8; MOST_INPUT];
    let mut out = [0u8; REPLY_ROOM];
    run(rt, &mut words, &mut input, &mut out);
}
