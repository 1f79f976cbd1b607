// Fetching from code that is sealed.
ghost use Rattle.std.specs.Prelude.{◌≡◌, ◌^◌, ◌<◌, IfSome, OnSome};
ghost use Rattle.text.specs.Memory.{Memory};
ghost use Rattle.machine.specs.Instr.{fetch};
ghost use Rattle.code.specs.Programs.{program_of, meant_record, StandsAt};

use crate::table::{Place, Record, Sealed};
use store::value::Identifier;

impl Sealed {
    // The record at a place of a function; none where there is no such function or place.
    pub fn fetch(&self, records: &[Record], function: Identifier, pc: Place) -> Option<Record>
        ensures of_the_program { (m : Memory) → meant_record m result ≡ fetch (program_of m self.now records.now) function.0 pc.0 }
        ensures in_the_table { IfSome result (StandsAt self.now records.now function.0 pc.0) }
        ensures placed { OnSome result (pc.0 < 2 ^ 32) }
    {
        let functions = &self.extents[..self.functions];
        let extent = functions.get(usize::from(function.0))?;
        let record = records.get(extent.index(pc)?)?;
        Some(*record)
    }
}
