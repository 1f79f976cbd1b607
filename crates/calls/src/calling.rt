// A call of whatever function a register names.
ghost use Rattle.std.specs.Prelude.{ℕ, ◌^◌, ◌<◌};
ghost use Rattle.store.specs.Tables.{Table, Tables};
ghost use Rattle.calls.specs.Applying.{SameSpace};
ghost use Rattle.calls.specs.Frames.{LiveWithin, SameFrames};
ghost use Rattle.calls.specs.Calling.{content, Roomy, world_in, state_in, answer_from, call_from, Called};

use crate::builtins::apply;
use crate::frame::Frames;
use crate::passed::Passed;
use effects::literals::Literals;
use effects::spent::Spent;
use machine::builtin::{Builtin, NotBuiltin};
use machine::ending::Ending;
use machine::instruction::Register;
use operands::registers::operand;
use store::value::Identifier;

impl Frames<'_, '_> {
    // What a function of the machine answers goes to the first register passed.
    fn answer(
        &mut self,
        builtin: Builtin,
        passed: Passed,
        literals: Literals<'_, '_>,
        spent: &mut Spent<'_, '_>,
    ) -> Result<(), Ending>
        requires roomy { Roomy (content literals spent.old self.old) }
        requires placed { self.old.running.pc.0 < 2 ^ 32 }
        ensures called { (g : ℕ) (T : Tables) (G : Table) → LiveWithin spent.old.strings.used self.old → Called (content literals.entry spent.old self.old) T G (answer_from builtin g passed.first.0 passed.last.0 (state_in (content literals.entry spent.old self.old) (world_in T G (content literals.entry spent.old self.old)))) result (content literals.entry spent.new self.new) }
        ensures lent { SameFrames self.old self.new × SameSpace spent.old spent.new }
    {
        let v = apply(builtin, self.current(), passed, literals, spent)?;
        let base = self.base();
        self.registers[base + passed.first.0 as usize] = Some(v);
        self.running.pc = self.running.pc.next();
        Ok(())
    }

    // The function that a register names is called with the registers that are passed.
    pub fn call(
        &mut self,
        a: Register,
        passed: Passed,
        literals: Literals<'_, '_>,
        spent: &mut Spent<'_, '_>,
    ) -> Result<(), Ending>
        requires roomy { Roomy (content literals spent.old self.old) }
        requires placed { self.old.running.pc.0 < 2 ^ 32 }
        ensures called { (T : Tables) (G : Table) → LiveWithin spent.old.strings.used self.old → Called (content literals.entry spent.old self.old) T G (call_from a.0 passed.first.0 passed.last.0 (state_in (content literals.entry spent.old self.old) (world_in T G (content literals.entry spent.old self.old)))) result (content literals.entry spent.new self.new) }
        ensures lent { SameFrames self.old self.new × SameSpace spent.old spent.new }
    {
        let name: Identifier = operand(self.current(), a)?;
        match Builtin::try_from(name) {
            Ok(builtin) => self.answer(builtin, passed, literals, spent),
            Err(NotBuiltin) => self.enter(name, passed),
        }
    }
}
