// A refusal as it is printed.
ghost use Rattle.std.specs.Prelude.{◌≡◌, ◌++◌, Some, codes, decimal};
ghost use Rattle.nodes.specs.Refusal.{number_of, place_of};
ghost use Rattle.nodes.specs.declared.refusal.Refusal.TheVariants as refusal;

use lexer::token::Stray;
use nodes::refusal::Refusal;
use std::fmt;

// The number of the question that a text does not pass, and the place in the text.
#[derive(Clone, Copy, Debug, PartialEq, Eq)]
pub struct Refused {
    pub number: u8,
    pub place: usize,
}

impl From<Refusal> for Refused {
    ghost from_gives = { λ r d. (d.number ≡ number_of r) × (d.place ≡ place_of r) };

    fn from(refusal: Refusal) -> Refused {
        Refused {
            number: refusal.number(),
            place: refusal.place() as usize,
        }
    }
}

// A text that is only read into tokens may be longer than one that has a tree.
impl From<Stray> for Refused {
    ghost from_gives = { λ s d. (d.number ≡ number_of (refusal.Stray 0)) × (d.place ≡ s.0) };

    fn from(stray: Stray) -> Refused {
        Refused {
            number: Refusal::Stray(0).number(),
            place: stray.0,
        }
    }
}

impl fmt::Display for Refused {
    ghost output = { λ d. Some (codes "no " ++ (decimal d.number ++ (codes " at " ++ decimal d.place))) };

    fn fmt<W: fmt::Write>(&self, f: &mut fmt::Formatter<W>) -> fmt::Result {
        let number = self.number;
        let place = self.place;
        write!(f, "no {number} at {place}")
    }
}
