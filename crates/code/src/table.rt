// The code table: records, grouped in functions.
ghost use Rattle.std.specs.Prelude.{◌^◌, ◌<◌, ◌≤◌, length};
ghost use Rattle.code.specs.declared.table.TheConstants.{FUNCTIONS};

pub mod laying;
pub mod places;
pub mod running;

use arrayvec::ArrayVec;
use machine::instruction::{Instruction, Register};

// A program's functions: the main one, those of the built-in operations, and at most 64 methods.
pub const FUNCTIONS: usize = 82;

// A place in a function's code; never a register or a table.
#[derive(Clone, Copy, Debug, PartialEq, Eq)]
pub struct Place(pub u64);

// An instruction, and the byte of the text that it came from.
#[derive(Clone, Copy)]
pub struct Record {
    pub instruction: Instruction,
    pub origin: u16,
}

// What a table holds where nothing was laid.
pub const UNLAID: Record = Record {
    instruction: Instruction::Ret(Register(0)),
    origin: 0,
};

// The records of a function.
#[derive(Clone, Copy, Debug, Default, PartialEq, Eq)]
pub struct Extent {
    pub start: u32,
    pub len: u32,
}

// Code that can be run: how many functions there are, and where each stands.
// An array and a count: sealed code is plain numbers and Copy, which no ArrayVec is.
#[derive(Clone, Copy)]
pub struct Sealed {
    functions: usize,
    extents: [Extent; FUNCTIONS],
    ghost fits: { functions ≤ FUNCTIONS },
}

// Code that is being laid, which nothing runs: the functions that are finished, and the one under way.
#[derive(Drop)]
pub struct Open {
    finished: ArrayVec<Extent, FUNCTIONS>,
    current: Extent,
    ghost few: { length finished.items < FUNCTIONS },
    ghost short: { current.len < 2 ^ 31 },
}

// A jump that was laid without its target, by its place in the function. It is not `Drop`: it is landed, or lost with the code.
pub struct OpenJump {
    at: u32,
    test: Option<Register>,
}

// There is no room for more code; only the functions here make one.
#[derive(Drop)]
pub struct Full(());
