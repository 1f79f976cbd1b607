// What the parser measures of expressions and of lists of them.
ghost use Rattle.std.specs.Prelude.{◌≡◌, ◌<◌, true, [], ◌∷◌};
ghost use Rattle.syntax.specs.Sizes.{around, side_by_side};
ghost use Rattle.syntax.specs.Parsing.{With, Closed};

use crate::limits::DEPTH;
use crate::read::{Given, Got, Size};
use nodes::node::{ARGUMENTS, Arguments};

impl Size {
    // Of what has no part: one deep, or nothing.
    pub fn new(depth: u8, small: bool) -> Size
        ensures { result ≡ record { depth = depth; small = small } }
    {
        Size { depth, small }
    }

    // Of an expression of one token.
    pub fn leaf(small: bool) -> Size
        ensures one_deep { result ≡ record { depth = 1; small = small } }
    {
        Size::new(1, small)
    }

    // Of what stands around it; 17 stands for all that is deeper than 16.
    pub fn deeper(self) -> Size
        ensures { result ≡ around self }
    {
        Size {
            depth: self.depth.min(DEPTH) + 1,
            small: self.small,
        }
    }

    // Of two parts side by side.
    pub fn beside(self, other: Size) -> Size
        ensures { result ≡ side_by_side self other }
    {
        Size {
            depth: self.depth.max(other.depth),
            small: self.small && other.small,
        }
    }
}

impl Given {
    pub fn none(to: u16) -> Given
        ensures none { result ≡ record { to = to; arguments = record { count = 0; roots = 0 ∷ 0 ∷ 0 ∷ 0 ∷ [] }; size = record { depth = 0; small = true } } }
    {
        Given {
            to,
            arguments: Arguments::default(),
            size: Size::new(0, true),
        }
    }

    // One more argument.
    pub fn with(self, e: Got) -> Given
        requires { self.arguments.count < e.to }
        ensures one_more { With self e result }
    {
        Given {
            to: e.to,
            arguments: self.arguments.with(e.root),
            size: self.size.beside(e.size),
        }
    }

    // All of them, read up to their `)`.
    pub fn closed(self, to: u16) -> Given
        ensures as_given { Closed self to result }
    {
        let few = self.arguments.count <= ARGUMENTS;
        Given {
            to,
            arguments: self.arguments,
            size: Size::new(self.size.depth, few && self.size.small),
        }
    }
}
