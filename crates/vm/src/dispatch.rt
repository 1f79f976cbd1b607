// One instruction, whichever it is.
ghost use Rattle.std.specs.Prelude.{◌≡◌, ℕ, ◌^◌, ◌<◌, ◌≤◌, Ok, Err};
ghost use Rattle.text.specs.Memory.{Memory, memory_of};
ghost use Rattle.store.specs.Val.{meaning};
ghost use Rattle.store.specs.Tables.{Tables};
ghost use Rattle.machine.specs.Limits.{Limits};
ghost use Rattle.machine.specs.Effects.{Effects};
ghost use Rattle.machine.specs.Instr.{Program, instr};
ghost use Rattle.machine.specs.State.{World, State};
ghost use Rattle.machine.specs.Step.{halted, exec};
ghost use Rattle.operands.specs.Globals.{globals_of, GlobalsWithin};
ghost use Rattle.operands.specs.Answering.{constant_end};
ghost use Rattle.instructions.specs.Local.{Stays};
ghost use Rattle.code.specs.Programs.{program_of};
ghost use Rattle.calls.specs.Applying.{memory_in};
ghost use Rattle.calls.specs.Frames.{state_of, LiveWithin, Sized, SameFrames, Moved};
ghost use Rattle.vm.specs.Standing.{lent, limits_of, Roomy, Stands, Does, Unmoved, Stayed, SameMemory, return_from, halt_from};

use crate::run::Run;
use calls::frame::{Frames, REGISTERS};
use calls::passed::Passed;
use calls::program::Code;
use instructions::execute::execute;
use machine::ending::Ending;
use machine::instruction::{Instruction, Register};
use operands::globals::Globals;
use operands::registers::value;
use store::Store;
use store::value::Value;
use text::span::Bytes;

// The ending that a value asks for.
fn halted(v: Value) -> Ending
    ensures { (m : Memory) → result ≡ halted (meaning m v) }
{
    match v {
        Value::Int(n) => Ending::try_from(n).unwrap_or(Ending::Stuck),
        _ => Ending::Stuck,
    }
}

fn halt(a: Register, frames: &Frames<'_, '_>) -> Ending
    requires { Sized frames.now }
    ensures { (m : Memory) (W : World) → halt_from a.0 (state_of m frames.now W) ≡ Err result }
{
    match value(frames.current(), a) {
        Ok(v) => halted(v),
        Err(ending) => ending,
    }
}

fn give_back(a: Register, code: Code<'_, '_, '_>, frames: &mut Frames<'_, '_>) -> Result<(), Ending>
    requires { Sized frames.old }
    ensures left { (m : Memory) (W : World) → Moved m W (return_from (program_of m code.entry.sealed.now code.entry.records.now) a.0 (state_of m frames.old W)) result frames.old frames.new }
    ensures within { (u : ℕ) → LiveWithin u frames.old → LiveWithin u frames.new }
    ensures lent { SameFrames frames.old frames.new }
{
    let v = value(frames.current(), a)?;
    frames.leave(v, code)
}

// An instruction that stays in the running frame.
fn stay<S: Store>(
    i: Instruction,
    frames: &mut Frames<'_, '_>,
    globals: &mut Globals,
    store: &mut S,
    bytes: Bytes<'_, '_, '_>,
) -> Result<(), Ending>
    requires sized { Sized frames.old }
    requires placed { frames.old.running.pc.0 < 2 ^ 32 }
    ensures stayed { (P : Program) (o : Effects) (T : Tables) → Stays (instr (memory_of bytes.entry) i) → S.Store.holds store.old (memory_of bytes.entry) T → Stayed (λ U. Ok (state_of (memory_of bytes.entry) frames.new (record { tables = U; globals = globals_of (memory_of bytes.entry) globals.new; effects = o }))) (exec P (limits_of S.Store store.old) (instr (memory_of bytes.entry) i) (state_of (memory_of bytes.entry) frames.old (record { tables = T; globals = globals_of (memory_of bytes.entry) globals.old; effects = o }))) result (Unmoved frames.old frames.new × (globals.new ≡ globals.old)) (S.Store.holds store.new (memory_of bytes.entry)) T }
    ensures within { (u : ℕ) → LiveWithin u frames.old → GlobalsWithin u globals.old → S.Store.within store.old u → constant_end i ≤ u → LiveWithin u frames.new × GlobalsWithin u globals.new × S.Store.within store.new u }
    ensures space { limits_of S.Store store.new ≡ limits_of S.Store store.old }
    ensures lent { SameFrames frames.old frames.new }
{
    let base = frames.base();
    let registers = &mut frames.registers[base..base + REGISTERS];
    let pc = execute(i, frames.running.pc, registers, globals, store, bytes)?;
    frames.running.pc = pc;
    Ok(())
}

impl Run<'_, '_, '_, '_> {
    pub(crate) fn dispatch<S: Store>(
        &mut self,
        i: Instruction,
        code: Code<'_, '_, '_>,
        store: &mut S,
    ) -> Result<(), Ending>
        requires roomy { Roomy self.old }
        requires placed { self.old.frames.running.pc.0 < 2 ^ 32 }
        ensures done { (P : Program) (L : Limits) (m : State) → Stands S.Store store.old (lent code.entry self.old) P L m → constant_end i ≤ self.old.spent.strings.used → Does (exec P L (instr (memory_in code.entry.literals self.old.spent) i) m) m result (Stands S.Store store.new (lent code.entry self.new) P L) }
        ensures lent { SameMemory self.old self.new }
    {
        match i {
            Instruction::Call(a, first, last) => {
                store.lent_more();
                let passed = Passed { first, last };
                self.frames.call(a, passed, code.literals, &mut self.spent)
            }
            Instruction::Ret(a) => give_back(a, code, &mut self.frames),
            Instruction::Halt(a) => Err(halt(a, &self.frames)),
            _ => {
                let bytes = code.literals.with(&self.spent.strings);
                stay(i, &mut self.frames, &mut self.globals, store, bytes)
            }
        }
    }
}
