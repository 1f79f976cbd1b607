// What the parser's functions hand up of what they read.
ghost use Rattle.std.specs.Prelude.{◌≡◌, true, false, MatchResult};
ghost use Rattle.nodes.specs.declared.refusal.Refusal.TheVariants.{Unexpected, OverLimit};

use nodes::node::{Arguments, Method, Parameters};
use nodes::refusal::Refusal;

// What the limits ask of an expression: its depth, with 17 for all that is deeper than 16, and whether its literals and its lists of arguments are small enough.
// (No Option of the depth: both are joined part by part, each in its own way.)
#[derive(Clone, Copy)]
pub struct Size {
    pub depth: u8,
    pub small: bool,
}

// An expression that was read: where it ends, and its root with its place.
#[derive(Clone, Copy)]
pub struct Got {
    pub to: u16,
    pub root: u16,
    pub place: u16,
    pub size: Size,
}

// Arguments that were read.
#[derive(Clone, Copy)]
pub struct Given {
    pub to: u16,
    pub arguments: Arguments,
    pub size: Size,
}

// The place of a token that no text has there.
#[derive(Clone, Copy)]
pub struct Stuck(pub u16);

impl From<Stuck> for Refusal {
    ghost from_gives = { λ s f. f ≡ Unexpected s.0 };

    fn from(stuck: Stuck) -> Refusal {
        Refusal::Unexpected(stuck.0)
    }
}

// What can be written to.
#[derive(Clone, Copy)]
pub enum Variable {
    Local,
    Field,
}

// A variable with `=` behind it: the bytes of its name, and where the value begins.
#[derive(Clone, Copy)]
pub struct Target {
    pub variable: Variable,
    pub from: u16,
    pub to: u16,
    pub value: u16,
}

// Parameters that were read.
#[derive(Clone, Copy)]
pub struct Listed {
    pub to: u16,
    pub parameters: Parameters,
}

// A method that was read.
#[derive(Clone, Copy)]
pub struct Defined {
    pub to: u16,
    pub method: Method,
}

// What was read, and whether it is within the limits.
// (No Result of its own: what is over the limits is handed up too.)
#[derive(Clone, Copy)]
pub struct Judged<T> {
    pub read: T,
    pub within: bool,
}

impl<T: Copy> Judged<T> {
    // What was read, unless it is over the limits.
    pub fn accepted(self) -> Result<T, Refusal>
        ensures by_the_limits { MatchResult result (λ x. (x ≡ self.read) × (self.within ≡ true)) (λ f. (f ≡ OverLimit) × (self.within ≡ false)) }
    {
        if self.within {
            Ok(self.read)
        } else {
            Err(Refusal::OverLimit)
        }
    }
}
