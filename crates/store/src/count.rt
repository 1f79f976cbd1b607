// How many tables stand, of as many as may.
ghost use Rattle.std.specs.Prelude.{◌≡◌, ◌+◌, ◌<◌, ◌≤◌, MatchOption, MatchResult};
ghost use Rattle.store.specs.Limits.{most_tables};

use crate::NoTable;
use crate::capacity::Capacity;
use crate::value::Location;

// Tables are numbered as they are made, so their count tells which stand.
#[derive(Clone, Copy, Debug)]
pub struct TableCount {
    made: u16,
    most: u16,
    ghost counted: { made ≤ most },
    ghost limit: { most ≤ most_tables },
}

impl TableCount {
    pub fn new(capacity: Capacity) -> TableCount
        ensures none { result.made ≡ 0 }
        ensures most { result.most ≡ capacity.tables }
    {
        TableCount {
            made: 0,
            most: capacity.tables(),
        }
    }

    pub fn clear(&mut self)
        ensures none { self.new.made ≡ 0 }
        ensures most { self.new.most ≡ self.old.most }
    {
        self.made = 0;
    }

    // The location of one table more.
    pub fn make(&mut self) -> Option<Location>
        ensures made { MatchOption result ((self.new.made ≡ self.old.made) × (self.old.most ≤ self.old.made)) (λ l. (l.0 ≡ self.old.made) × (self.old.made < self.old.most) × (self.new.made ≡ self.old.made + 1)) }
        ensures most { self.new.most ≡ self.old.most }
    {
        if self.made == self.most {
            return None;
        }
        let made = Location(self.made);
        self.made += 1;
        Some(made)
    }

    // Refuses the location of a table that was not made.
    pub fn check(&self, location: Location) -> Result<(), NoTable>
        ensures made { MatchResult result (λ _. location.0 < self.now.made) (λ _. self.now.made ≤ location.0) }
    {
        if location.0 < self.made {
            Ok(())
        } else {
            Err(NoTable)
        }
    }
}
