// The limits of a text, and whether a body is within them.
ghost use Rattle.std.specs.Prelude.{◌≡◌, ◌≤◌, true, Decides};
ghost use Rattle.grammar.specs.Limits.{argument_limit, depth_limit, name_limit};

use crate::read::Size;
use nodes::node::ARGUMENTS;

// The bytes of a text.
pub(crate) const TEXT: usize = 4096;

// The bytes of a string literal, without its quotes.
pub(crate) const STRING: u16 = 255;

// The distinct names of parameters and locals in a body.
pub(crate) const NAMES: usize = 16;

// How deep expressions stand in one another.
pub(crate) const DEPTH: u8 = 16;

// Is a body of this size, with so many parameters and names, within the limits?
pub(crate) fn within(parameters: u16, size: Size, names: usize) -> bool
    ensures each_limit { Decides result ((parameters ≤ argument_limit) × (size.small ≡ true) × (size.depth ≤ depth_limit) × (names ≤ name_limit)) }
{
    parameters <= ARGUMENTS && size.small && size.depth <= DEPTH && names <= NAMES
}
