// Pseudo-random asks.
use crate::ask::Ask;
use store::key::Key;
use store::value::{Identifier, Location, Value};
use text::span::{Space, Span};

#[derive(Drop)]
pub struct Random {
    state: u32,
}

impl Random {
    pub fn new(state: u32) -> Random {
        Random { state }
    }

    // A number below `end`, or 0 where there is none.
    fn below(&mut self, end: u16) -> u16 {
        self.state = self.state.wrapping_mul(1664525).wrapping_add(1013904223);
        let high = (self.state >> 16) as u16;
        high.checked_rem(end).unwrap_or(0)
    }

    fn string(&mut self) -> Span {
        let space = match self.below(3) {
            0 => Space::Fixed,
            1 => Space::Texts,
            _ => Space::Made,
        };
        let start = self.below(4);
        let len = self.below(3);
        Span { space, start, len }
    }

    fn value(&mut self) -> Value {
        match self.below(4) {
            0 => Value::Int(i32::from(self.below(4)) - 2),
            1 => Value::Str(self.string()),
            2 => Value::Ident(Identifier(self.below(3))),
            _ => Value::Loc(Location(self.below(3))),
        }
    }
}

// It never ends.
impl Iterator for Random {
    type Item = Ask;

    fn next(&mut self) -> Option<Ask> {
        let kind = self.below(256);
        let location = Location(self.below(6));
        let value = self.value();
        let key = Key { location, value };
        Some(match kind {
            0 => Ask::Clear,
            1..=15 => Ask::Make,
            16..=55 => Ask::Has(key),
            56..=135 => Ask::Read(key),
            _ => Ask::Write(key, self.value()),
        })
    }
}
