// What a call passes.
ghost use Rattle.std.specs.Prelude.{◌≡◌, ℕ, length, is_some};
ghost use Rattle.std.specs.List.{list_all};
ghost use Rattle.text.specs.Memory.{Memory};
ghost use Rattle.operands.specs.Slots.{registers_of, answered, Within, EndsBy};
ghost use Rattle.calls.specs.Applying.{arguments_at, only_at, both_at, both_answered, BothEnd, There};
ghost use Rattle.calls.specs.Passing.{Passes, PassesWithin};

use machine::ending::Ending;
use machine::instruction::Register;
use operands::registers::value;
use std::ops::Range;
use store::value::Value;

// The registers of the running frame from the first to the last; none if the last is below the first.
#[derive(Clone, Copy)]
pub struct Passed {
    pub first: Register,
    pub last: Register,
}

fn all_set(registers: &[Option<Value>]) -> bool
    ensures { result ≡ list_all is_some registers.now }
{
    registers.iter().all(|v| v.is_some())
}

impl Passed {
    // The argument of a call that has only one.
    pub(crate) fn only(self, registers: &[Option<Value>]) -> Result<Value, Ending>
        ensures held { (m : Memory) → answered m result ≡ only_at (registers_of m registers.now) self.first.0 self.last.0 }
        ensures within { (u : ℕ) → Within u registers.now → EndsBy u result }
        ensures there { There self.first.0 (length registers.now) result }
    {
        let v = value(registers, self.first)?;
        if self.first.0 == self.last.0 {
            Ok(v)
        } else {
            Err(Ending::Stuck)
        }
    }

    // The arguments of a call that has two.
    pub(crate) fn both(self, registers: &[Option<Value>]) -> Result<(Value, Value), Ending>
        ensures held { (m : Memory) → both_answered m result ≡ both_at (registers_of m registers.now) self.first.0 self.last.0 }
        ensures within { (u : ℕ) → Within u registers.now → BothEnd u result }
        ensures there { There self.first.0 (length registers.now) result }
    {
        let v = value(registers, self.first)?;
        let w = value(registers, self.last)?;
        if self.first.0 as usize + 1 == self.last.0 as usize {
            Ok((v, w))
        } else {
            Err(Ending::Stuck)
        }
    }

    // The places of all the arguments, each of which must be set.
    pub(crate) fn places(self, registers: &[Option<Value>]) -> Result<Range<usize>, Ending>
        ensures passed { (m : Memory) → Passes m registers.now (arguments_at (registers_of m registers.now) self.first.0 self.last.0) result }
        ensures within { PassesWithin (length registers.now) result }
    {
        if self.last.0 < self.first.0 {
            return Ok(0..0);
        }
        let from = self.first.0 as usize;
        let end = self.last.0 as usize + 1;
        match registers.get(from..end) {
            Some(arguments) if all_set(arguments) => Ok(from..end),
            _ => Err(Ending::Stuck),
        }
    }
}
