// Why a call is refused (§5.3): each reason under a name, and its number.
ghost use Rattle.std.specs.Prelude.{◌≡◌};
ghost use Rattle.model.specs.Refusals.{reason_number};

#[derive(Clone, Copy, Debug, PartialEq, Eq)]
pub enum Refusal {
    NoSymbols,
    TooManySymbols,
    UnknownSymbol,
    ChildrenMissing,
    NotOneTree,
    Mark,
    Alphabet,
    Size,
    ListRoom,
    NoList,
    Unsound,
    Phase,
    Agrees,
    Contradicts,
    RowsShort,
    StatesShort,
    RulesShort,
}

impl From<Refusal> for u8 {
    ghost from_gives = { λ r n. n ≡ reason_number r };

    // The number by which the specification tells the reason.
    fn from(refusal: Refusal) -> u8 {
        match refusal {
            Refusal::NoSymbols => 11,
            Refusal::TooManySymbols => 12,
            Refusal::UnknownSymbol => 13,
            Refusal::ChildrenMissing => 14,
            Refusal::NotOneTree => 15,
            Refusal::Mark => 16,
            Refusal::Alphabet => 17,
            Refusal::Size => 18,
            Refusal::ListRoom => 20,
            Refusal::NoList => 21,
            Refusal::Unsound => 30,
            Refusal::Phase => 31,
            Refusal::Agrees => 32,
            Refusal::Contradicts => 33,
            Refusal::RowsShort => 34,
            Refusal::StatesShort => 35,
            Refusal::RulesShort => 36,
        }
    }
}
