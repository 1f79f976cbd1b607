// Small programs of the machine; each instruction stands in one of them.
use machine::instruction::{Instruction, Offset, Register};
use store::value::{Identifier, Value};
use text::span::{Space, Span};

pub const FIXED: &[u8] = b"keyabcdefgh";

// A function that begins the run, and one that it can call.
#[derive(Clone, Copy)]
pub struct Listing {
    pub name: &'static str,
    pub main: &'static [Instruction],
    pub other: &'static [Instruction],
}

const R0: Register = Register(0);

const R1: Register = Register(1);

const R2: Register = Register(2);

const R3: Register = Register(3);

const R4: Register = Register(4);

const R5: Register = Register(5);

const R6: Register = Register(6);

const R7: Register = Register(7);

const PRINT: Value = Value::Ident(Identifier(65280));

const TO_S: Value = Value::Ident(Identifier(65281));

const CONCAT: Value = Value::Ident(Identifier(65282));

const LENGTH: Value = Value::Ident(Identifier(65283));

const KEY: Value = Value::Str(Span {
    space: Space::Fixed,
    start: 0,
    len: 3,
});

const EIGHT: Value = Value::Str(Span {
    space: Space::Fixed,
    start: 3,
    len: 8,
});

// 0 to 4, each printed
const COUNTS: [Instruction; 11] = [
    Instruction::Const(R1, Value::Int(0)),
    Instruction::Const(R2, Value::Int(1)),
    Instruction::Const(R3, Value::Int(5)),
    Instruction::Const(R4, PRINT),
    Instruction::Lt(R5, R1, R3),
    Instruction::IfZero(R5, Offset(4)),
    Instruction::Mov(R6, R1),
    Instruction::Call(R4, R6, R6),
    Instruction::Add(R1, R1, R2),
    Instruction::Jmp(Offset(-6)),
    Instruction::Ret(R1),
];

// what the other function answers to 7 and 3
const CALLS: [Instruction; 7] = [
    Instruction::Const(R0, Value::Ident(Identifier(1))),
    Instruction::Const(R1, Value::Int(7)),
    Instruction::Const(R2, Value::Int(3)),
    Instruction::Call(R0, R1, R2),
    Instruction::Const(R3, PRINT),
    Instruction::Call(R3, R1, R1),
    Instruction::Ret(R2),
];

const ANSWERS: [Instruction; 6] = [
    Instruction::Sub(R2, R0, R1),
    Instruction::Mul(R3, R0, R2),
    Instruction::Div(R4, R3, R1),
    Instruction::Leq(R5, R4, R3),
    Instruction::Add(R4, R4, R5),
    Instruction::Ret(R4),
];

// one table, under a global; its key is read under a string that is made
const TABLES: [Instruction; 31] = [
    Instruction::MkTab(R0),
    Instruction::WrGlob(Identifier(7), R0),
    Instruction::Const(R1, KEY),
    Instruction::Const(R2, Value::Int(42)),
    Instruction::Const(R6, TO_S),
    Instruction::Mov(R3, R2),
    Instruction::Call(R6, R3, R3),
    Instruction::Mov(R4, R3),
    Instruction::Mov(R3, R1),
    Instruction::Const(R6, CONCAT),
    Instruction::Call(R6, R3, R4),
    Instruction::WrTab(R0, R3, R2),
    Instruction::RdGlob(R5, Identifier(7)),
    Instruction::HasTab(R4, R5, R1),
    Instruction::Const(R7, PRINT),
    Instruction::Call(R7, R4, R4),
    Instruction::RdTab(R4, R5, R3),
    Instruction::Call(R7, R4, R4),
    Instruction::Eq(R4, R0, R5),
    Instruction::Call(R7, R4, R4),
    Instruction::IsInt(R4, R2),
    Instruction::Call(R7, R4, R4),
    Instruction::IsStr(R4, R2),
    Instruction::Call(R7, R4, R4),
    Instruction::IsTab(R4, R5),
    Instruction::Call(R7, R4, R4),
    Instruction::Const(R6, LENGTH),
    Instruction::Mov(R4, R3),
    Instruction::Call(R6, R4, R4),
    Instruction::Call(R7, R4, R4),
    Instruction::Ret(R3),
];

const HALTS: [Instruction; 2] = [Instruction::Const(R0, Value::Int(4)), Instruction::Halt(R0)];

const DIVIDES: [Instruction; 3] = [
    Instruction::Const(R0, Value::Int(1)),
    Instruction::Const(R1, Value::Int(0)),
    Instruction::Div(R2, R0, R1),
];

const MAKES: [Instruction; 2] = [Instruction::MkTab(R0), Instruction::Jmp(Offset(-2))];

const FILLS: [Instruction; 6] = [
    Instruction::MkTab(R0),
    Instruction::Const(R1, Value::Int(0)),
    Instruction::Const(R2, Value::Int(1)),
    Instruction::WrTab(R0, R1, R1),
    Instruction::Add(R1, R1, R2),
    Instruction::Jmp(Offset(-3)),
];

// a string as long again, as often as there is space
const DOUBLES: [Instruction; 7] = [
    Instruction::Const(R0, CONCAT),
    Instruction::Const(R1, EIGHT),
    Instruction::Mov(R2, R1),
    Instruction::Mov(R3, R1),
    Instruction::Call(R0, R2, R3),
    Instruction::Mov(R1, R2),
    Instruction::Jmp(Offset(-5)),
];

// a function that calls itself
const NESTS: [Instruction; 2] = [
    Instruction::Const(R0, Value::Ident(Identifier(0))),
    Instruction::Call(R0, R0, R0),
];

const PRINTS: [Instruction; 5] = [
    Instruction::Const(R0, PRINT),
    Instruction::Const(R1, EIGHT),
    Instruction::Mov(R2, R1),
    Instruction::Call(R0, R2, R2),
    Instruction::Jmp(Offset(-3)),
];

const READS_UNSET: [Instruction; 1] = [Instruction::Add(R0, R1, R2)];

const WALKS_OFF: [Instruction; 1] = [Instruction::Const(R0, Value::Int(1))];

// a function that is none takes a frame, and then is stuck
const CALLS_NONE: [Instruction; 2] = [
    Instruction::Const(R0, Value::Ident(Identifier(9))),
    Instruction::Call(R0, R1, R0),
];

pub const LISTINGS: [Listing; 13] = [
    Listing {
        name: "counts",
        main: &COUNTS,
        other: &[],
    },
    Listing {
        name: "calls",
        main: &CALLS,
        other: &ANSWERS,
    },
    Listing {
        name: "tables",
        main: &TABLES,
        other: &[],
    },
    Listing {
        name: "halts",
        main: &HALTS,
        other: &[],
    },
    Listing {
        name: "divides by zero",
        main: &DIVIDES,
        other: &[],
    },
    Listing {
        name: "makes tables",
        main: &MAKES,
        other: &[],
    },
    Listing {
        name: "fills a table",
        main: &FILLS,
        other: &[],
    },
    Listing {
        name: "doubles a string",
        main: &DOUBLES,
        other: &[],
    },
    Listing {
        name: "nests calls",
        main: &NESTS,
        other: &[],
    },
    Listing {
        name: "prints on",
        main: &PRINTS,
        other: &[],
    },
    Listing {
        name: "reads an unset register",
        main: &READS_UNSET,
        other: &[],
    },
    Listing {
        name: "walks off",
        main: &WALKS_OFF,
        other: &[],
    },
    Listing {
        name: "calls no function",
        main: &CALLS_NONE,
        other: &[],
    },
];
