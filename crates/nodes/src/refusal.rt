// Why a text is refused.
ghost use Rattle.std.specs.Prelude.{◌≡◌};
ghost use Rattle.nodes.specs.Refusal.{number_of, place_of};

#[derive(Clone, Copy, Debug, PartialEq, Eq)]
pub enum Refusal {
    // more bytes than a text may have
    TooLong,
    // the place of a byte that no token has, or of a quote that is never closed
    Stray(u16),
    // the place of the first token that no text has there, or the text's length
    Unexpected(u16),
    // a limit on literals, arguments, names or depth is passed
    OverLimit,
}

impl Refusal {
    // The number of the question that the text does not pass.
    pub fn number(self) -> u8
        ensures by_its_case { result ≡ number_of self }
    {
        match self {
            Refusal::TooLong => 4,
            Refusal::Stray(_) => 5,
            Refusal::Unexpected(_) => 6,
            Refusal::OverLimit => 7,
        }
    }

    // The place in the text that the refusal names; 0 where it names none.
    pub fn place(self) -> u16
        ensures by_its_case { result ≡ place_of self }
    {
        match self {
            Refusal::Stray(place) | Refusal::Unexpected(place) => place,
            Refusal::TooLong | Refusal::OverLimit => 0,
        }
    }
}
