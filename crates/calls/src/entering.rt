// A call enters a new frame.
ghost use Rattle.std.specs.Prelude.{◌≡◌, ℕ, ◌+◌, ◌-◌, ◌≤◌, length};
ghost use Rattle.text.specs.Memory.{Memory};
ghost use Rattle.machine.specs.Limits.{registers_per_frame};
ghost use Rattle.machine.specs.State.{World};
ghost use Rattle.calls.specs.Passing.{laid, handed};
ghost use Rattle.calls.specs.Frames.{state_of, LiveWithin, Sized, SameFrames, Moved, enter_from};

use crate::frame::{FRAMES, Frame, Frames, REGISTERS};
use crate::passed::Passed;
use code::table::Place;
use machine::ending::Ending;
use std::ops::Range;
use store::value::{Identifier, Value};

// The registers of the frame behind the one at `base`: what it is passed, and unset ones.
fn pass(registers: &mut [Option<Value>], base: usize, places: Range<usize>)
    requires { (places.start ≤ places.end) × (places.end ≤ registers_per_frame) × (base + registers_per_frame + registers_per_frame ≤ length registers.old) }
    ensures { registers.new ≡ laid registers.old (base + registers_per_frame) (handed registers.old (base + places.start) (places.end - places.start)) }
{
    let to = base + REGISTERS;
    let n = places.end - places.start;
    registers.copy_within(base + places.start..base + places.end, to);
    registers[to + n..to + REGISTERS].fill(None);
}

impl Frames<'_, '_> {
    // A new frame for a function of the code, whichever that is.
    pub(crate) fn enter(&mut self, function: Identifier, passed: Passed) -> Result<(), Ending>
        requires { Sized self.old }
        ensures entered { (m : Memory) (W : World) → Moved m W (enter_from function.0 passed.first.0 passed.last.0 (state_of m self.old W)) result self.old self.new }
        ensures within { (u : ℕ) → LiveWithin u self.old → LiveWithin u self.new }
        ensures lent { SameFrames self.old self.new }
    {
        let base = self.base();
        let places = passed.places(self.current())?;
        if self.callers.len() + 1 >= FRAMES {
            return Err(Ending::NoFrameSpace);
        }
        pass(self.registers, base, places);
        let _ = self.callers.push(self.running);
        self.running = Frame {
            function,
            pc: Place(0),
        };
        Ok(())
    }
}
