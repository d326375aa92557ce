// What a host is told by numbers: a verdict (§3.8), and a refusal in each of the structs that a call returns (§5.3).
ghost use Rattle.std.specs.Prelude.{◌≡◌};
ghost use Rattle.model.specs.Entry.{refused, judged, judged_as};
ghost use Rattle.model.specs.Refusals.{reason_number, unlisted};

use crate::refusal::Refusal;
use crate::{Emitted, Judged, Seen, Verdict};

impl From<Verdict> for Judged {
    ghost from_gives = { λ v j. j ≡ judged_as v };

    // A verdict by its numbers.
    fn from(verdict: Verdict) -> Judged {
        match verdict {
            Verdict::Accepted => Judged {
                number: 0,
                outcome: 1,
                place: 0,
            },
            Verdict::NotFinal => Judged {
                number: 0,
                outcome: 2,
                place: 0,
            },
            Verdict::NoRule(place) => Judged {
                number: 0,
                outcome: 3,
                place: place,
            },
        }
    }
}

impl From<Refusal> for Judged {
    ghost from_gives = { λ r j. j ≡ judged (reason_number r) 0 0 };

    // No verdict: the number and nothing else.
    fn from(refusal: Refusal) -> Judged {
        Judged {
            number: u8::from(refusal),
            outcome: 0,
            place: 0,
        }
    }
}

impl From<Refusal> for Emitted {
    ghost from_gives = { λ r e. e ≡ unlisted (reason_number r) };

    // No list: the number and nothing else.
    fn from(refusal: Refusal) -> Emitted {
        Emitted {
            number: u32::from(u8::from(refusal)),
            size: 0,
        }
    }
}

impl From<Refusal> for Seen {
    ghost from_gives = { λ r s. s ≡ refused (reason_number r) };

    // A call refused: the number and nothing else.
    fn from(refusal: Refusal) -> Seen {
        Seen {
            number: u8::from(refusal),
            phase: 0,
            row: 0,
            states: 0,
            rules: 0,
            contexts: 0,
        }
    }
}
