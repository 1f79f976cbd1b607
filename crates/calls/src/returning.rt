// The way back from a call.
ghost use Rattle.std.specs.Prelude.{◌≡◌, ℕ, ◌≤◌};
ghost use Rattle.text.specs.Memory.{Memory};
ghost use Rattle.store.specs.Val.{meaning, end_of};
ghost use Rattle.machine.specs.Instr.{fetch};
ghost use Rattle.machine.specs.State.{World};
ghost use Rattle.machine.specs.Step.{return};
ghost use Rattle.code.specs.Programs.{program_of};
ghost use Rattle.calls.specs.Frames.{callers_in, LiveWithin, Sized, SameFrames, Moved, target_of, registered, PlacedCall};

use crate::frame::{Frame, Frames, REGISTERS};
use crate::program::Code;
use code::table::Record;
use machine::ending::Ending;
use machine::instruction::{Instruction, Register};
use store::value::Value;

// The register that takes the answer of the call that a frame waits for.
fn target(code: Code<'_, '_, '_>, frame: Frame) -> Result<Register, Ending>
    ensures of_the_call { (m : Memory) → registered result ≡ target_of (fetch (program_of m code.entry.sealed.now code.entry.records.now) frame.function.0 frame.pc.0) }
    ensures placed { PlacedCall frame.pc.0 result }
{
    match code.sealed.fetch(code.records, frame.function, frame.pc) {
        Some(
            Record {
                instruction: Instruction::Call(_, first, _),
                ..
            },
        ) => Ok(first),
        _ => Err(Ending::Stuck),
    }
}

impl Frames<'_, '_> {
    // Back to the caller with an answer; without a caller the run has finished.
    pub fn leave(&mut self, answer: Value, code: Code<'_, '_, '_>) -> Result<(), Ending>
        requires { Sized self.old }
        ensures left { (m : Memory) (W : World) → Moved m W (return (program_of m code.entry.sealed.now code.entry.records.now) (meaning m answer) (callers_in m self.old) W) result self.old self.new }
        ensures callers_kept { self.new.callers.items.now ≡ self.old.callers.items.now }
        ensures within { (u : ℕ) → LiveWithin u self.old → end_of answer ≤ u → LiveWithin u self.new }
        ensures lent { SameFrames self.old self.new }
    {
        let Some(caller) = self.callers.top() else {
            return Err(Ending::Finished);
        };
        let to = target(code, caller)?.0 as usize;
        if to >= REGISTERS {
            return Err(Ending::Stuck);
        }
        let _ = self.callers.pop();
        let base = self.base();
        self.registers[base + to] = Some(answer);
        self.running = Frame {
            function: caller.function,
            pc: caller.pc.next(),
        };
        Ok(())
    }
}
