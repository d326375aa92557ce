// What a later line asks for (§8.3), by its first bytes.
ghost use Rattle.std.specs.Prelude.{◌≡◌};
ghost use Rattle.text_lines.specs.Asks.{asked_of};

use text::MOST_INPUT;

// A call that needs no record, an offer with its mark, or none of these. A mark is the number that the calls take (§3.4, §3.5).
#[derive(Clone, Copy)]
pub enum Asked {
    Nothing,
    Answer(u8),
    Accept,
    Offer(u8),
}

// What a line asks for; the record of an offer is still to be read.
#[tactic(auto, using(crate::proofs::Laws::Asking::asked_by, std::proofs::lemmas::Bool::Decides::nat_tests))]
pub fn asked_of(line: &[u8]) -> Asked
    ensures { result ≡ asked_of line.now }
{
    if line.len() > MOST_INPUT {
        return Asked::Nothing;
    }
    match line {
        b"y" => Asked::Answer(1),
        b"n" => Asked::Answer(0),
        b"ok" => Asked::Accept,
        [b'+', b' ', ..] => Asked::Offer(1),
        [b'-', b' ', ..] => Asked::Offer(0),
        _ => Asked::Nothing,
    }
}
