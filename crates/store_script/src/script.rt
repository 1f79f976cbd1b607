// A script that meets every refusal at its edge: two tables, three pairs.
use crate::ask::Ask;
use store::key::Key;
use store::value::{Identifier, Location, Value};
use text::span::{Space, Span};

pub const FIXED: &[u8] = b"ab";

pub const TEXTS: &[u8] = b"1ab";

pub const MADE: &[u8] = b"xab1";

const ZERO: Location = Location(0);

const ONE: Location = Location(1);

const TWO: Location = Location(2);

// one string in three memories
pub const AB: Value = Value::Str(Span {
    space: Space::Fixed,
    start: 0,
    len: 2,
});

const AB_IN_TEXTS: Value = Value::Str(Span {
    space: Space::Texts,
    start: 1,
    len: 2,
});

pub const AB_MADE: Value = Value::Str(Span {
    space: Space::Made,
    start: 1,
    len: 2,
});

// an integer and a string of the same digit
const INT_1: Value = Value::Int(1);

const STRING_1: Value = Value::Str(Span {
    space: Space::Texts,
    start: 0,
    len: 1,
});

const STRING_1_MADE: Value = Value::Str(Span {
    space: Space::Made,
    start: 3,
    len: 1,
});

macro_rules! key {
    ($location:expr, $value:expr) => {
        Key {
            location: $location,
            value: $value,
        }
    };
}

pub const SCRIPT: [Ask; 34] = [
    Ask::Has(key!(ZERO, AB)),
    Ask::Read(key!(ZERO, AB)),
    Ask::Write(key!(ZERO, AB), Value::Int(7)),
    Ask::Make,
    Ask::Make,
    Ask::Make,
    Ask::Has(key!(TWO, AB)),
    Ask::Has(key!(ONE, AB)),
    Ask::Read(key!(ZERO, AB)),
    Ask::Write(key!(ZERO, AB), Value::Int(7)),
    Ask::Read(key!(ZERO, AB_IN_TEXTS)),
    Ask::Has(key!(ZERO, AB_MADE)),
    Ask::Write(key!(ZERO, AB_MADE), Value::Int(8)),
    Ask::Read(key!(ZERO, AB)),
    Ask::Write(key!(ZERO, INT_1), Value::Int(-1)),
    Ask::Read(key!(ZERO, STRING_1)),
    Ask::Write(key!(ZERO, STRING_1), AB),
    Ask::Read(key!(ZERO, INT_1)),
    Ask::Read(key!(ZERO, STRING_1_MADE)),
    Ask::Write(key!(ONE, AB), Value::Int(9)),
    Ask::Has(key!(ONE, AB)),
    Ask::Write(key!(ZERO, AB), Value::Int(10)),
    Ask::Read(key!(ZERO, AB_MADE)),
    Ask::Write(key!(TWO, AB), Value::Int(11)),
    Ask::Read(key!(TWO, AB)),
    Ask::Clear,
    Ask::Has(key!(ZERO, AB)),
    Ask::Make,
    Ask::Read(key!(ZERO, AB)),
    Ask::Write(key!(ZERO, Value::Loc(ONE)), Value::Ident(Identifier(1))),
    Ask::Read(key!(ZERO, Value::Loc(ONE))),
    Ask::Read(key!(ZERO, Value::Ident(Identifier(1)))),
    Ask::Read(key!(ZERO, INT_1)),
    Ask::Make,
];
