// The instructions that stay in their frame.
ghost use Rattle.std.specs.Prelude.{◌≡◌, ℕ, ◌^◌, ◌<◌, ◌≤◌, length, MatchResult};
ghost use Rattle.text.specs.Memory.{Memory, memory_of};
ghost use Rattle.store.specs.Tables.{Tables};
ghost use Rattle.machine.specs.declared.ending.Ending.TheVariants.{Stuck};
ghost use Rattle.machine.specs.Limits.{registers_per_frame, Limits};
ghost use Rattle.machine.specs.Instr.{instr};
ghost use Rattle.operands.specs.Slots.{registers_of, answered, Within, EndsBy};
ghost use Rattle.operands.specs.Globals.{globals_of, GlobalsWithin};
ghost use Rattle.operands.specs.Answering.{constant_end};
ghost use Rattle.instructions.specs.Local.{if_zero_from, set_global_at, set_key_at, set_at, placed, registers_after, globals_after, Unchanged, Made, Wrote, limits, act, local, Executed};

use code::table::Place;
use machine::ending::Ending;
use machine::instruction::{Instruction, Offset, Register};
use operands::answer::{Answer, answer_of};
use operands::globals::Globals;
use operands::registers::{operand, value};
use store::Store;
use store::key::Key;
use store::value::{Identifier, Value};
use text::span::Bytes;

// That the place is below 2 ^ 32 is known of an instruction that was fetched, and not of every place: a jump may lead further.
fn if_zero(registers: &[Option<Value>], a: Register, pc: Place, n: Offset) -> Result<Place, Ending>
    requires { pc.0 < 2 ^ 32 }
    ensures { (m : Memory) → placed result ≡ if_zero_from pc.0 (registers_of m registers.now) a.0 n.0 }
{
    match value(registers, a)? {
        Value::Int(0) => pc.jump(n).ok_or(Ending::Stuck),
        _ => Ok(pc.next()),
    }
}

// The index of a register that the frame has. An index, since after a `get_mut` no proof knows the other registers.
fn target(registers: &[Option<Value>], a: Register) -> Result<usize, Ending>
    ensures { MatchResult result (λ i. (i ≡ a.0) × (i < length registers.now)) (λ e. (e ≡ Stuck) × (length registers.now ≤ a.0)) }
{
    let i = usize::from(a.0);
    if i < registers.len() {
        Ok(i)
    } else {
        Err(Ending::Stuck)
    }
}

// An answer goes into its register, if the frame has it.
fn set(registers: &mut [Option<Value>], answer: Answer) -> Result<(), Ending>
    ensures set { (m : Memory) → length registers.old ≡ registers_per_frame → registers_after m result registers.new ≡ set_at answer.target.0 (answered m answer.value) (registers_of m registers.old) }
    ensures refused { Unchanged result registers.old registers.new }
    ensures within { (u : ℕ) → Within u registers.old → EndsBy u answer.value → Within u registers.new }
{
    let i = target(registers, answer.target)?;
    let v = answer.value?;
    registers[i] = Some(v);
    Ok(())
}

fn write_global(
    registers: &[Option<Value>],
    name: Identifier,
    a: Register,
    globals: &mut Globals,
) -> Result<(), Ending>
    ensures written { (m : Memory) → globals_after m result globals.new ≡ set_global_at (registers_of m registers.now) a.0 name.0 (globals_of m globals.old) }
    ensures refused { Unchanged result globals.old globals.new }
    ensures within { (u : ℕ) → Within u registers.now → GlobalsWithin u globals.old → GlobalsWithin u globals.new }
{
    globals.write(name, value(registers, a)?)?;
    Ok(())
}

// A new table, and its location in a register.
fn make_table<S: Store>(
    registers: &mut [Option<Value>],
    a: Register,
    store: &mut S,
) -> Result<(), Ending>
    ensures made { (m : Memory) (T : Tables) → S.Store.holds store.old m T → length registers.old ≡ registers_per_frame → Made m (S.Store.tables store.old) a.0 T result registers.old registers.new (S.Store.holds store.new m) }
    ensures registers_within { (u : ℕ) → Within u registers.old → Within u registers.new }
    ensures store_within { (u : ℕ) → S.Store.within store.old u → S.Store.within store.new u }
    ensures limits { (S.Store.tables store.new ≡ S.Store.tables store.old) × (S.Store.room store.new ≡ S.Store.room store.old) }
{
    let i = target(registers, a)?;
    let l = store.make().ok_or(Ending::NoTableSpace)?;
    registers[i] = Some(Value::Loc(l));
    Ok(())
}

// A key's value, replaced or new.
fn write_key<S: Store>(
    registers: &[Option<Value>],
    a: Register,
    b: Register,
    c: Register,
    store: &mut S,
    bytes: Bytes<'_, '_, '_>,
) -> Result<(), Ending>
    ensures wrote { (T : Tables) → S.Store.holds store.old (memory_of bytes.entry) T → Wrote (set_key_at (S.Store.room store.old) T (registers_of (memory_of bytes.entry) registers.now) a.0 b.0 c.0) T result (S.Store.holds store.new (memory_of bytes.entry)) }
    ensures within { (u : ℕ) → Within u registers.now → S.Store.within store.old u → S.Store.within store.new u }
    ensures limits { (S.Store.tables store.new ≡ S.Store.tables store.old) × (S.Store.room store.new ≡ S.Store.room store.old) }
{
    let key = Key {
        location: operand(registers, a)?,
        value: value(registers, b)?,
    };
    let v = value(registers, c)?;
    store.write(key, v, bytes)?;
    Ok(())
}

// The instructions that act other than by an answer; those that leave the frame do nothing here.
// What is lent stands in parameters of its own: each part is lent on alone, the registers from the middle of a longer slice.
fn act<S: Store>(
    i: Instruction,
    pc: Place,
    registers: &mut [Option<Value>],
    globals: &mut Globals,
    store: &mut S,
    bytes: Bytes<'_, '_, '_>,
) -> Result<Place, Ending>
    requires { pc.0 < 2 ^ 32 }
    ensures acted { (T : Tables) → S.Store.holds store.old (memory_of bytes.entry) T → length registers.old ≡ registers_per_frame → Executed (memory_of bytes.entry) (act (limits (S.Store.tables store.old) (S.Store.room store.old)) (instr (memory_of bytes.entry) i) pc.0 (registers_of (memory_of bytes.entry) registers.old) T (globals_of (memory_of bytes.entry) globals.old)) T result registers.old registers.new globals.old globals.new (S.Store.holds store.new (memory_of bytes.entry)) }
    ensures within { (u : ℕ) → Within u registers.old → GlobalsWithin u globals.old → S.Store.within store.old u → Within u registers.new × GlobalsWithin u globals.new × S.Store.within store.new u }
    ensures limits { (S.Store.tables store.new ≡ S.Store.tables store.old) × (S.Store.room store.new ≡ S.Store.room store.old) }
{
    match i {
        Instruction::Jmp(n) => pc.jump(n).ok_or(Ending::Stuck),
        Instruction::IfZero(a, n) => if_zero(registers, a, pc, n),
        Instruction::WrGlob(name, a) => {
            write_global(registers, name, a, globals)?;
            Ok(pc.next())
        }
        Instruction::MkTab(a) => {
            make_table(registers, a, store)?;
            Ok(pc.next())
        }
        Instruction::WrTab(a, b, c) => {
            write_key(registers, a, b, c, store, bytes)?;
            Ok(pc.next())
        }
        _ => Err(Ending::Stuck),
    }
}

// One instruction that stays in its frame: where the frame goes on, or how the run ends.
pub fn execute<S: Store>(
    i: Instruction,
    pc: Place,
    registers: &mut [Option<Value>],
    globals: &mut Globals,
    store: &mut S,
    bytes: Bytes<'_, '_, '_>,
) -> Result<Place, Ending>
    requires { pc.0 < 2 ^ 32 }
    ensures executed { (T : Tables) → S.Store.holds store.old (memory_of bytes.entry) T → length registers.old ≡ registers_per_frame → Executed (memory_of bytes.entry) (local (limits (S.Store.tables store.old) (S.Store.room store.old)) (instr (memory_of bytes.entry) i) pc.0 (registers_of (memory_of bytes.entry) registers.old) T (globals_of (memory_of bytes.entry) globals.old)) T result registers.old registers.new globals.old globals.new (S.Store.holds store.new (memory_of bytes.entry)) }
    ensures within { (u : ℕ) → Within u registers.old → GlobalsWithin u globals.old → S.Store.within store.old u → constant_end i ≤ u → Within u registers.new × GlobalsWithin u globals.new × S.Store.within store.new u }
    ensures limits { (S.Store.tables store.new ≡ S.Store.tables store.old) × (S.Store.room store.new ≡ S.Store.room store.old) }
{
    match answer_of(i, registers, globals, store, bytes) {
        Some(answer) => {
            set(registers, answer)?;
            Ok(pc.next())
        }
        None => act(i, pc, registers, globals, store, bytes),
    }
}
