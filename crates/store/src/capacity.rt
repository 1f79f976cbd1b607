// How much a store can hold at most.
ghost use Rattle.std.specs.Prelude.{◌≡◌, ◌<◌, ◌≤◌, Some, Ok, Err};
ghost use Rattle.store.specs.Limits.{most_tables, most_pairs};
ghost use Rattle.store.specs.Words.{words_of};

use std::error::Error;
use std::fmt;

pub const TABLES: u16 = 4096;

pub const PAIRS: u16 = 16384;

// Numbers within the limits: a store can only be made for such.
#[derive(Clone, Copy, Debug)]
pub struct Capacity {
    tables: u16,
    pairs: u16,
    ghost fits: { (tables ≤ most_tables) × (pairs ≤ most_pairs) },
}

#[derive(Clone, Copy, PartialEq, Eq, Debug)]
pub enum TooLarge {
    Tables,
    Pairs,
}

impl fmt::Display for TooLarge {
    ghost output = { λ e. Some (words_of e) };

    fn fmt<W: fmt::Write>(&self, f: &mut fmt::Formatter<W>) -> fmt::Result {
        match self {
            TooLarge::Tables => write!(f, "too many tables"),
            TooLarge::Pairs => write!(f, "too many pairs"),
        }
    }
}

impl Error for TooLarge {}

impl Capacity {
    pub fn new(tables: u16, pairs: u16) -> Result<Capacity, TooLarge>
        ensures { elim result [ Ok c ↦ (c.tables ≡ tables) × (c.pairs ≡ pairs) × (tables ≤ most_tables) × (pairs ≤ most_pairs) | Err e ↦ elim e [ TooLarge.Tables ↦ most_tables < tables | TooLarge.Pairs ↦ (tables ≤ most_tables) × (most_pairs < pairs) ] ] }
    {
        if tables > TABLES {
            return Err(TooLarge::Tables);
        }
        if pairs > PAIRS {
            return Err(TooLarge::Pairs);
        }
        Ok(Capacity { tables, pairs })
    }

    pub fn tables(&self) -> u16
        ensures value { result ≡ self.now.tables }
        ensures below { result ≤ most_tables }
    {
        self.tables
    }

    pub fn pairs(&self) -> u16
        ensures value { result ≡ self.now.pairs }
        ensures below { result ≤ most_pairs }
    {
        self.pairs
    }
}
