// Frames of calls, in lent memory.
ghost use Rattle.std.specs.Prelude.{◌≡◌, ℕ, ◌+◌, ◌*◌, ◌<◌, ◌≤◌, min, [], length, take};
ghost use Rattle.text.specs.Memory.{Memory};
ghost use Rattle.machine.specs.Limits.{registers_per_frame, most_frames};
ghost use Rattle.machine.specs.State.{World, passed, at};
ghost use Rattle.stack.specs.Held.{held, room};

use code::table::Place;
use stack::Stack;
use store::value::{Identifier, Value};

// The registers of a frame, and the frames of a run: the running one is one of them.
pub const REGISTERS: usize = 128;

pub const FRAMES: usize = 32;

// A call under way: its function and the place of its next instruction, or of the call that it waits for.
#[derive(Clone, Copy, Debug, PartialEq, Eq)]
pub struct Frame {
    pub function: Identifier,
    pub pc: Place,
}

// A run begins at the first place of function 0.
pub const FIRST: Frame = Frame {
    function: Identifier(0),
    pc: Place(0),
};

// The frames as numbers, which lend nothing: the running one, and how many callers wait for it.
#[derive(Clone, Copy, Debug, PartialEq, Eq)]
pub struct Calls {
    pub running: Frame,
    pub waiting: usize,
}

// The running frame, the callers that wait for it, and the registers of all in one slice, the oldest caller's first.
// Whatever is lent makes frames: a run looks at the sizes before its first step.
#[derive(Drop)]
pub struct Frames<'c, 'r> {
    pub running: Frame,
    pub callers: Stack<'c, Frame>,
    pub registers: &'r mut [Option<Value>],
    ghost few: { length (held callers) < most_frames },
}

impl<'c, 'r> Frames<'c, 'r> {
    ghost use Rattle.calls.specs.Frames.{waiting, window, state_of, LiveWithin, SameFrames};

    pub fn new(callers: &'c mut [Frame], registers: &'r mut [Option<Value>]) -> Frames<'c, 'r>
        ensures none { held result.callers ≡ [] }
        ensures first { (result.running.function.0 ≡ 0) × (result.running.pc.0 ≡ 0) }
        ensures callers { (result.callers.items.ghost_name ≡ callers.entry.ghost_name) × (room result.callers ≡ length callers.old) }
        ensures registers { result.registers ≡ registers.entry }
    {
        Frames {
            running: FIRST,
            callers: Stack::new(callers),
            registers,
        }
    }

    // Frames that stand in lent memory: as many callers as wait, or as many as there may be.
    pub fn resume(
        running: Frame,
        callers: &'c mut [Frame],
        waiting: usize,
        registers: &'r mut [Option<Value>],
    ) -> Frames<'c, 'r>
        ensures running { result.running ≡ running }
        ensures held { held result.callers ≡ take (min waiting 31) callers.old }
        ensures callers { (result.callers.items.ghost_name ≡ callers.entry.ghost_name) × (room result.callers ≡ length callers.old) }
        ensures registers { result.registers ≡ registers.entry }
    {
        let callers = Stack::resume(callers, waiting.min(FRAMES - 1));
        Frames {
            running,
            callers,
            registers,
        }
    }

    // The running frame, and how many callers wait for it.
    pub fn calls(&self) -> Calls
        ensures running { result.running ≡ self.now.running }
        ensures waiting { result.waiting ≡ waiting self.now }
    {
        Calls {
            running: self.running,
            waiting: self.callers.len(),
        }
    }

    // The first frame of a run, with no register set.
    pub fn begin(&mut self)
        requires sized { registers_per_frame ≤ length self.old.registers.now }
        ensures begun { (m : Memory) (W : World) → at 0 0 (passed []) [] W ≡ state_of m self.new W }
        ensures within { (u : ℕ) → LiveWithin u self.new }
        ensures none { held self.new.callers ≡ [] }
        ensures first { (self.new.running.function.0 ≡ 0) × (self.new.running.pc.0 ≡ 0) }
        ensures callers_kept { self.new.callers.items ≡ self.old.callers.items }
        ensures lent { SameFrames self.old self.new }
    {
        self.running = FIRST;
        self.callers.clear();
        self.registers[..REGISTERS].fill(None);
    }

    // Where the registers of the running frame begin.
    pub fn base(&self) -> usize
        ensures place { result ≡ registers_per_frame * waiting self.now }
    {
        REGISTERS * self.callers.len()
    }

    // The registers of the running frame.
    pub fn current(&self) -> &[Option<Value>]
        requires sized { registers_per_frame * waiting self.now + registers_per_frame ≤ length self.now.registers.now }
        ensures window { result.now ≡ window self.now.registers.now (waiting self.now) }
    {
        let base = self.base();
        &self.registers[base..base + REGISTERS]
    }
}
