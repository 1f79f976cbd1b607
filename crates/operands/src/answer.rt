// The instructions that answer a value for a register.
ghost use Rattle.std.specs.Prelude.{◌≡◌, ℕ, ◌≤◌, Some};
ghost use Rattle.text.specs.Memory.{Memory, memory_of};
ghost use Rattle.store.specs.Tables.{Tables};
ghost use Rattle.machine.specs.Instr.{instr};
ghost use Rattle.operands.specs.Slots.{registers_of, Within, EndsBy};
ghost use Rattle.operands.specs.Globals.{globals_of, GlobalsWithin};
ghost use Rattle.operands.specs.Answering.{answer_of, meant_answer, constant_end, AnswerWithin};

use crate::globals::Globals;
use crate::registers::{arith, equal, kind, ordered, value};
use crate::tables::{has_key, read_key};
use machine::arith::{Op, Order};
use machine::ending::Ending;
use machine::instruction::{Instruction, Kind, Register};
use store::Store;
use store::value::Value;
use text::span::Bytes;

// A value, or the ending of the run, for a register.
#[derive(Clone, Copy)]
pub struct Answer {
    pub target: Register,
    pub value: Result<Value, Ending>,
}

fn given(target: Register, value: Result<Value, Ending>) -> Option<Answer>
    ensures is { result ≡ Some (record { target = target; value = value }) }
    ensures within { (u : ℕ) → EndsBy u value → AnswerWithin u result }
{
    Some(Answer { target, value })
}

// What the instruction answers; nothing if it acts otherwise.
pub fn answer_of<S: Store>(
    i: Instruction,
    registers: &[Option<Value>],
    globals: &Globals,
    store: &S,
    bytes: Bytes<'_, '_, '_>,
) -> Option<Answer>
    ensures answered { (T : Tables) → S.Store.holds store.now (memory_of bytes.entry) T → meant_answer (memory_of bytes.entry) result ≡ answer_of (instr (memory_of bytes.entry) i) (registers_of (memory_of bytes.entry) registers.now) T (globals_of (memory_of bytes.entry) globals.now) }
    ensures within { (u : ℕ) → Within u registers.now → GlobalsWithin u globals.now → S.Store.within store.now u → constant_end i ≤ u → AnswerWithin u result }
{
    match i {
        Instruction::Const(a, v) => given(a, Ok(v)),
        Instruction::Mov(a, b) => given(a, value(registers, b)),
        Instruction::Add(a, b, c) => given(a, arith(registers, Op::Add, b, c)),
        Instruction::Sub(a, b, c) => given(a, arith(registers, Op::Sub, b, c)),
        Instruction::Mul(a, b, c) => given(a, arith(registers, Op::Mul, b, c)),
        Instruction::Div(a, b, c) => given(a, arith(registers, Op::Div, b, c)),
        Instruction::Eq(a, b, c) => given(a, equal(registers, b, c, bytes)),
        Instruction::Lt(a, b, c) => given(a, ordered(registers, Order::Less, b, c)),
        Instruction::Leq(a, b, c) => given(a, ordered(registers, Order::AtMost, b, c)),
        Instruction::IsInt(a, b) => given(a, kind(registers, Kind::Integer, b)),
        Instruction::IsStr(a, b) => given(a, kind(registers, Kind::Text, b)),
        Instruction::IsTab(a, b) => given(a, kind(registers, Kind::Table, b)),
        Instruction::RdGlob(a, g) => given(a, globals.read(g).ok_or(Ending::Stuck)),
        Instruction::RdTab(a, b, c) => given(a, read_key(registers, b, c, store, bytes)),
        Instruction::HasTab(a, b, c) => given(a, has_key(registers, b, c, store, bytes)),
        _ => None,
    }
}
