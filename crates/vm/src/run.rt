// Runs in measured steps, over any store and whatever memory is lent.
ghost use Rattle.std.specs.Prelude.{◌≡◌, ℕ, ◌<◌, ◌≤◌, [], length, take, IfOk, MatchResult, OnOk};
ghost use Rattle.machine.specs.Limits.{Limits, registers_per_frame};
ghost use Rattle.machine.specs.Instr.{Program};
ghost use Rattle.machine.specs.State.{State, initial};
ghost use Rattle.machine.specs.Step.{step};
ghost use Rattle.text.specs.Memory.{Memory};
ghost use Rattle.stack.specs.Held.{held, room};
ghost use Rattle.operands.specs.Globals.{globals_of};
ghost use Rattle.calls.specs.Applying.{memory_in};
ghost use Rattle.code.specs.Programs.{program_of};
ghost use Rattle.vm.specs.Running.{Stepped, RanBy, RanTo};

use calls::frame::{Calls, FRAMES, Frame, Frames, REGISTERS};
use calls::program::Code;
use effects::output::Output;
use effects::spent::{Numbers, Spent};
use effects::strings::{STRING_BYTES, Strings};
use machine::ending::Ending;
use operands::globals::Globals;
use store::Store;
use store::value::Value;

// The lent memory is too small for a run.
#[derive(Clone, Copy)]
pub struct TooSmall;

// How many steps were made, and how the run ended, if it did.
#[derive(Clone, Copy)]
pub struct Ran {
    pub steps: u32,
    pub ending: Option<Ending>,
}

// All that a run holds but for its store, in lent memory of any size.
#[derive(Drop)]
pub struct Run<'c, 'r, 'm, 'o> {
    pub frames: Frames<'c, 'r>,
    pub globals: Globals,
    pub spent: Spent<'m, 'o>,
}

impl<'c, 'r, 'm, 'o> Run<'c, 'r, 'm, 'o> {
    ghost use Rattle.vm.specs.Standing.{lent, limits_of, CodeWithin, Roomy, Counted, Begins, SameMemory, Stands, Steps};

    // No caller, no global, nothing made or printed; `begin` unsets the registers.
    pub fn new(
        callers: &'c mut [Frame],
        registers: &'r mut [Option<Value>],
        strings: &'m mut [u8],
        output: &'o mut [u8],
    ) -> Run<'c, 'r, 'm, 'o>
        ensures none { held result.frames.callers ≡ [] }
        ensures first { (result.frames.running.function.0 ≡ 0) × (result.frames.running.pc.0 ≡ 0) }
        ensures globals { (m : Memory) → globals_of m result.globals ≡ [] }
        ensures callers { (result.frames.callers.items.ghost_name ≡ callers.entry.ghost_name) × (room result.frames.callers ≡ length callers.old) }
        ensures nothing { (result.spent.strings.count ≡ 0) × (result.spent.strings.used ≡ 0) × (result.spent.output.printed ≡ 0) }
        ensures registers { result.frames.registers ≡ registers.entry }
        ensures strings { result.spent.strings.bytes ≡ strings.entry }
        ensures output { result.spent.output.bytes ≡ output.entry }
    {
        Run {
            frames: Frames::new(callers, registers),
            globals: Globals::new(),
            spent: Spent::nothing(strings, output),
        }
    }

    // Whether a run with these numbers can stand in memory of these lengths.
    pub fn room_for(
        calls: Calls,
        spent: Numbers,
        callers: &[Frame],
        strings: &[u8],
        output: &[u8],
    ) -> Result<(), TooSmall>
        ensures counted { MatchResult result (λ _. Counted calls spent (length callers.now) (length strings.now) (length output.now)) (λ _. Counted calls spent (length callers.now) (length strings.now) (length output.now) → ⊥) }
    {
        if calls.waiting >= FRAMES
            || calls.waiting > callers.len()
            || usize::from(spent.bytes) > strings.len().min(STRING_BYTES)
            || spent.printed > output.len()
        {
            return Err(TooSmall);
        }
        Ok(())
    }

    // A run that stands in lent memory with these numbers. Numbers that no run has there are refused.
    // No clause can say what is lent where that is so: a caller who keeps that and his globals asks `room_for` first.
    pub fn resume(
        calls: Calls,
        callers: &'c mut [Frame],
        registers: &'r mut [Option<Value>],
        globals: Globals,
        spent: Numbers,
        strings: &'m mut [u8],
        output: &'o mut [u8],
    ) -> Result<Run<'c, 'r, 'm, 'o>, TooSmall>
        ensures refused { MatchResult result (λ _. Counted calls spent (length callers.old) (length strings.old) (length output.old)) (λ _. Counted calls spent (length callers.old) (length strings.old) (length output.old) → ⊥) }
        ensures frames { IfOk result (λ r. (r.frames.running ≡ calls.running) × (held r.frames.callers ≡ take calls.waiting callers.old)) }
        ensures callers { IfOk result (λ r. (r.frames.callers.items.ghost_name ≡ callers.entry.ghost_name) × (room r.frames.callers ≡ length callers.old)) }
        ensures registers { IfOk result (λ r. r.frames.registers ≡ registers.entry) }
        ensures globals { IfOk result (λ r. r.globals ≡ globals) }
        ensures spent { IfOk result (λ r. (r.spent.strings.count ≡ spent.strings) × (r.spent.strings.used ≡ spent.bytes) × (r.spent.output.printed ≡ spent.printed)) }
        ensures strings { IfOk result (λ r. r.spent.strings.bytes ≡ strings.entry) }
        ensures output { IfOk result (λ r. r.spent.output.bytes ≡ output.entry) }
    {
        Self::room_for(calls, spent, callers, strings, output)?;
        Ok(Run {
            frames: Frames::resume(calls.running, callers, calls.waiting, registers),
            globals,
            spent: Spent {
                strings: Strings::resume(strings, spent.bytes, spent.strings),
                output: Output::resume(output, spent.printed),
            },
        })
    }

    // A run begins: one frame, no register set, no global, no table, nothing made or printed.
    pub fn begin<S: Store>(&mut self, store: &mut S) -> Result<(), TooSmall>
        ensures begun { OnOk result ((code : Code) (r : Run) → Begins self.new r → CodeWithin 0 code.sealed.now code.records.now → Stands S.Store store.new (lent code r) (program_of (memory_in code.literals r.spent) code.sealed.now code.records.now) (limits_of S.Store store.old) (initial (length r.spent.output.bytes.now))) }
        ensures begins { OnOk result (Begins self.new self.new) }
        ensures kept { (self.new.spent.strings.bytes ≡ self.old.spent.strings.bytes) × (self.new.spent.output.bytes ≡ self.old.spent.output.bytes) × (self.new.frames.callers.items ≡ self.old.frames.callers.items) }
        ensures refused { MatchResult result (λ _. registers_per_frame ≤ length self.old.frames.registers.now) (λ _. (length self.old.frames.registers.now < registers_per_frame) × (self.new ≡ self.old) × (store.new ≡ store.old)) }
        ensures lent { SameMemory self.old self.new }
    {
        if self.frames.registers.len() < REGISTERS {
            return Err(TooSmall);
        }
        self.frames.begin();
        self.globals = Globals::new();
        self.spent.strings.clear();
        self.spent.output.clear();
        store.clear();
        Ok(())
    }

    // Whether there is memory for all that a step can leave.
    fn fits(&self) -> Result<(), TooSmall>
        ensures roomy { MatchResult result (λ _. Roomy self.now) (λ _. Roomy self.now → ⊥) }
    {
        if self.frames.callers.room() < FRAMES - 1
            || self.frames.registers.len() < REGISTERS * FRAMES
            || self.spent.strings.room() < STRING_BYTES
        {
            return Err(TooSmall);
        }
        Ok(())
    }

    fn advance<S: Store>(&mut self, code: Code<'_, '_, '_>, store: &mut S) -> Result<(), Ending>
        requires { Roomy self.old }
        ensures stepped { (P : Program) (L : Limits) (m : State) → Stands S.Store store.old (lent code.entry self.old) P L m → Steps (step P L m) m result (Stands S.Store store.new (lent code.entry self.new) P L) }
        ensures lent { SameMemory self.old self.new }
    {
        let running = self.frames.running;
        let fetched = code
            .sealed
            .fetch(code.records, running.function, running.pc);
        let Some(record) = fetched else {
            return Err(Ending::Stuck);
        };
        self.dispatch(record.instruction, code, store)
    }

    // One step, and how it ended the run, if it did. What is lent is looked at first: where it is too small nothing is done.
    pub fn step<S: Store>(
        &mut self,
        code: Code<'_, '_, '_>,
        store: &mut S,
    ) -> Result<Option<Ending>, TooSmall>
        ensures refused { MatchResult result (λ _. Roomy self.old) (λ _. (Roomy self.old → ⊥) × (self.new ≡ self.old) × (store.new ≡ store.old)) }
        ensures stepped { (P : Program) (L : Limits) (m : State) → Stands S.Store store.old (lent code.entry self.old) P L m → Stepped (step P L m) m result (Stands S.Store store.new (lent code.entry self.new) P L) }
        ensures lent { SameMemory self.old self.new }
    {
        self.fits()?;
        Ok(self.advance(code, store).err())
    }

    fn advance_by<S: Store>(&mut self, n: u32, code: Code<'_, '_, '_>, store: &mut S) -> Ran
        requires { Roomy self.old }
        ensures ran { (P : Program) (L : Limits) (m : State) → Stands S.Store store.old (lent code.entry self.old) P L m → RanBy P L n m result (Stands S.Store store.new (lent code.entry self.new) P L) }
        ensures lent { SameMemory self.old self.new }
    {
        for i in 0..n {
            if let Err(ending) = self.advance(code, store) {
                return Ran {
                    steps: i + 1,
                    ending: Some(ending),
                };
            }
        }
        Ran {
            steps: n,
            ending: None,
        }
    }

    // At most n steps: as many, or fewer where the run ends; the step that ends it is counted.
    pub fn steps<S: Store>(
        &mut self,
        n: u32,
        code: Code<'_, '_, '_>,
        store: &mut S,
    ) -> Result<Ran, TooSmall>
        ensures refused { MatchResult result (λ _. Roomy self.old) (λ _. (Roomy self.old → ⊥) × (self.new ≡ self.old) × (store.new ≡ store.old)) }
        ensures ran { (P : Program) (L : Limits) (m : State) → Stands S.Store store.old (lent code.entry self.old) P L m → RanTo P L n m result (Stands S.Store store.new (lent code.entry self.new) P L) }
        ensures lent { SameMemory self.old self.new }
    {
        self.fits()?;
        Ok(self.advance_by(n, code, store))
    }
}
