// Places in a function's code, and where they stand in the table.
ghost use Rattle.std.specs.Prelude.{◌≡◌, suc, ◌+◌, ◌^◌, ◌<◌, ◌≤◌, pos, ◌+ℤ◌, OnSome, MatchOption};
ghost use Rattle.machine.specs.Step.{landing};
ghost use Rattle.code.specs.Programs.{led};
ghost use Rattle.code.specs.Laying.{end_of};

use crate::table::{Extent, Place};
use machine::instruction::Offset;

impl Place {
    // Behind the instruction that stands here.
    pub fn next(self) -> Place
        requires { self.0 < 2 ^ 32 }
        ensures behind { result.0 ≡ suc self.0 }
    {
        Place(self.0 + 1)
    }

    // Where a jump that stands here leads: there is no place before 0.
    pub fn jump(self, n: Offset) -> Option<Place>
        requires { self.0 < 2 ^ 32 }
        ensures landed { led result ≡ landing (pos (suc self.0) +ℤ n.0) }
    {
        let next = self.next();
        next.0.checked_add_signed(i64::from(n.0)).map(Place)
    }
}

impl Extent {
    // Behind the last record.
    pub(crate) fn end(self) -> u64
        ensures behind { result ≡ end_of self }
    {
        u64::from(self.start) + u64::from(self.len)
    }

    // Where the record at a place of the function stands.
    pub(crate) fn index(self, place: Place) -> Option<usize>
        ensures within { MatchOption result (self.len ≤ place.0) (λ i. (place.0 < self.len) × (i ≡ self.start + place.0)) }
        ensures small { OnSome result (place.0 < 2 ^ 32) }
    {
        if place.0 < u64::from(self.len) {
            Some(self.start as usize + place.0 as usize)
        } else {
            None
        }
    }
}
