// The methods that stand before any class is added.
ghost use Rattle.std.specs.Prelude.{◌≡◌, [], slice_index_or};
ghost use Rattle.std.specs.List.{slice_get};
ghost use Rattle.rube.specs.Builtin.{name_of, table, names};

use machine::arith::Op;

#[derive(Clone, Copy, Debug, PartialEq, Eq)]
pub enum BuiltinClass {
    Object,
    Str,
    Integer,
    Map,
    Bot,
}

// What a built-in method does; several pairs of class and method share one.
#[derive(Clone, Copy, Debug, PartialEq, Eq)]
pub enum Operation {
    // is the argument the same value?
    Equal,
    // the class's name, as a string or printed
    ClassName,
    PrintClassName,
    // a string as it is, an integer in decimal, and both printed
    Itself,
    Decimal,
    PrintValue,
    // `nil` as a string or printed
    NilText,
    PrintNil,
    Concat,
    Length,
    Arith(Op),
    Find,
    Insert,
    Has,
}

impl Operation {
    // What a program calls it by.
    pub fn name(self) -> &'static [u8]
        ensures its_letters { result.now ≡ name_of self }
    {
        match self {
            Operation::Equal => b"equal?",
            Operation::ClassName | Operation::Itself | Operation::Decimal | Operation::NilText =>
                b"to_s",
            Operation::PrintClassName | Operation::PrintValue | Operation::PrintNil => b"print",
            Operation::Concat => b"+",
            Operation::Length => b"length",
            Operation::Arith(Op::Add) => b"+",
            Operation::Arith(Op::Sub) => b"-",
            Operation::Arith(Op::Mul) => b"*",
            Operation::Arith(Op::Div) => b"/",
            Operation::Find => b"find",
            Operation::Insert => b"insert",
            Operation::Has => b"has",
        }
    }
}

#[derive(Clone, Copy, Debug, PartialEq, Eq)]
pub struct Builtin {
    pub class: BuiltinClass,
    pub parameters: u8,
    pub operation: Operation,
}

// A row of the table below.
macro_rules! row {
    ($class:ident, $parameters:literal, $operation:expr) => {
        Builtin {
            class: BuiltinClass::$class,
            parameters: $parameters,
            operation: $operation,
        }
    };
}

// The same rows are written out in `specs/`: there they are the language's, and an edit here is held against them.
const TABLE: [Builtin; 24] = [
    row!(Object, 1, Operation::Equal),
    row!(Object, 0, Operation::ClassName),
    row!(Object, 0, Operation::PrintClassName),
    row!(Str, 1, Operation::Equal),
    row!(Str, 0, Operation::Itself),
    row!(Str, 0, Operation::PrintValue),
    row!(Str, 1, Operation::Concat),
    row!(Str, 0, Operation::Length),
    row!(Integer, 1, Operation::Equal),
    row!(Integer, 0, Operation::Decimal),
    row!(Integer, 0, Operation::PrintValue),
    row!(Integer, 1, Operation::Arith(Op::Add)),
    row!(Integer, 1, Operation::Arith(Op::Sub)),
    row!(Integer, 1, Operation::Arith(Op::Mul)),
    row!(Integer, 1, Operation::Arith(Op::Div)),
    row!(Map, 1, Operation::Equal),
    row!(Map, 0, Operation::ClassName),
    row!(Map, 0, Operation::PrintClassName),
    row!(Map, 1, Operation::Find),
    row!(Map, 2, Operation::Insert),
    row!(Map, 1, Operation::Has),
    row!(Bot, 1, Operation::Equal),
    row!(Bot, 0, Operation::NilText),
    row!(Bot, 0, Operation::PrintNil),
];

// A row of the table.
pub fn builtin_at(i: usize) -> Option<Builtin>
    ensures the_table { result ≡ slice_get table i }
{
    TABLE.get(i).copied()
}

// The method's name in a row; past the last it is empty.
pub fn builtin_name(i: usize) -> &'static [u8]
    ensures the_table { result.now ≡ slice_index_or names i [] }
{
    match builtin_at(i) {
        Some(row) => row.operation.name(),
        None => b"",
    }
}
