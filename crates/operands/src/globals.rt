// The globals of a run, the oldest first.
ghost use Rattle.std.specs.Prelude.{◌≡◌, ℕ, ◌≤◌, [], pos, OnErr, nat_eq};
ghost use Rattle.std.specs.List.{position};
ghost use Rattle.text.specs.Memory.{Memory};
ghost use Rattle.store.specs.declared.value.Value.TheVariants.{Int};
ghost use Rattle.store.specs.Val.{Val, end_of};
ghost use Rattle.store.specs.Answers.{meant};
ghost use Rattle.store.specs.Tables.{look};
ghost use Rattle.machine.specs.declared.ending.Ending.TheVariants.{Stuck};
ghost use Rattle.operands.specs.Slots.{slot_end};
ghost use Rattle.operands.specs.Globals.{globals_of, GlobalsWithin, WritesGlobal};

use arrayvec::ArrayVec;
use machine::ending::Ending;
use store::value::{Identifier, Value};

// How many globals a run can have.
pub const GLOBALS: usize = 32;

#[derive(Clone, Copy)]
struct Global {
    name: Identifier,
    value: Value,
}

// What stands in the places that no global has taken. By hand, since no value is a default.
impl Default for Global {
    ghost is_default = { λ e. (e.name.0 ≡ 0) × (e.value ≡ Int (pos 0)) };

    fn default() -> Global {
        Global {
            name: Identifier(0),
            value: Value::Int(0),
        }
    }
}

#[derive(Drop)]
pub struct Globals {
    entries: ArrayVec<Global, GLOBALS>,
}

// There is no room for one more global.
#[derive(Clone, Copy, Debug, PartialEq, Eq)]
pub struct NoRoom;

impl From<NoRoom> for Ending {
    ghost from_gives = { λ _ e. e ≡ Stuck };

    fn from(_refusal: NoRoom) -> Ending {
        Ending::Stuck
    }
}

impl Globals {
    // No global yet.
    #[tactic(auto, unfolding(crate::specs::Globals::globals_of))]
    pub fn new() -> Globals
        ensures empty { (m : Memory) → globals_of m result ≡ [] }
        ensures within { GlobalsWithin 0 result }
    {
        Globals {
            entries: ArrayVec::new(),
        }
    }

    // One search serves reading and writing.
    fn place(&self, name: Identifier) -> Option<usize>
        ensures first { result ≡ position (λ e. nat_eq e.name.0 name.0) self.now.entries.items }
    {
        self.entries.iter().position(|global| global.name == name)
    }

    // The value of a global, if it was written.
    pub(crate) fn read(&self, name: Identifier) -> Option<Value>
        ensures held { (m : Memory) → meant m result ≡ look (Val.identifier name.0) (globals_of m self.now) }
        ensures within { (u : ℕ) → GlobalsWithin u self.now → slot_end result ≤ u }
    {
        let i = self.place(name)?;
        Some(self.entries[i].value)
    }

    // A global written before takes the new value; one more has to find room.
    pub fn write(&mut self, name: Identifier, value: Value) -> Result<(), NoRoom>
        ensures written { (m : Memory) → WritesGlobal m name.0 value result self.old self.new }
        ensures kept_where_refused { OnErr result (self.new ≡ self.old) }
        ensures within { (u : ℕ) → GlobalsWithin u self.old → end_of value ≤ u → GlobalsWithin u self.new }
    {
        let global = Global { name, value };
        match self.place(name) {
            Some(i) => self.entries[i] = global,
            None if self.entries.len() == GLOBALS => return Err(NoRoom),
            None => self.entries.push(global),
        }
        Ok(())
    }
}
