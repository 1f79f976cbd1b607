// The instructions of the machine, in the order of the machine's table.
use store::value::{Identifier, Value};

// The kinds of values that a program can ask for.
#[derive(Clone, Copy, Debug, PartialEq, Eq)]
pub enum Kind {
    Integer,
    Text,
    Table,
}

// A register of the running frame; never a place in the code or a table.
#[derive(Clone, Copy, Debug, PartialEq, Eq)]
pub struct Register(pub u8);

// How far a jump goes from the instruction behind it.
#[derive(Clone, Copy, Debug, PartialEq, Eq)]
pub struct Offset(pub i32);

#[derive(Clone, Copy)]
pub enum Instruction {
    Const(Register, Value),
    Mov(Register, Register),
    Add(Register, Register, Register),
    Sub(Register, Register, Register),
    Mul(Register, Register, Register),
    Div(Register, Register, Register),
    Eq(Register, Register, Register),
    Lt(Register, Register, Register),
    Leq(Register, Register, Register),
    IsInt(Register, Register),
    IsStr(Register, Register),
    IsTab(Register, Register),
    Jmp(Offset),
    IfZero(Register, Offset),
    RdGlob(Register, Identifier),
    WrGlob(Identifier, Register),
    MkTab(Register),
    RdTab(Register, Register, Register),
    WrTab(Register, Register, Register),
    HasTab(Register, Register, Register),
    Call(Register, Register, Register),
    Ret(Register),
    Halt(Register),
}
